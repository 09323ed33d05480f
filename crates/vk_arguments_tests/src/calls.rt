//! Functions that are called, over six arrays.
use vk_kinds::{CType, Kind, Param, Step};
use vk_pointer_texts::ArrayHead;
use vk_types::Ty;

/// `int a[4], b[4]; const int c[8]; signed char d[3]; int s; unsigned u[2];`
pub static HEADS: [ArrayHead<'static>; 6] = [
    ArrayHead {
        text: b"a",
        ty: Ty::I32,
        fixed: false,
        length: 4,
    },
    ArrayHead {
        text: b"b",
        ty: Ty::I32,
        fixed: false,
        length: 4,
    },
    ArrayHead {
        text: b"c",
        ty: Ty::I32,
        fixed: true,
        length: 8,
    },
    ArrayHead {
        text: b"d",
        ty: Ty::I8,
        fixed: false,
        length: 3,
    },
    ArrayHead {
        text: b"s",
        ty: Ty::I32,
        fixed: false,
        length: 1,
    },
    ArrayHead {
        text: b"u",
        ty: Ty::U32,
        fixed: false,
        length: 2,
    },
];

const NUMBER: CType = CType::Int(Ty::I32);

const WRITTEN: CType = CType::Ptr {
    to: Ty::I32,
    written: true,
};

const READ: CType = CType::Ptr {
    to: Ty::I32,
    written: false,
};

const BYTES: CType = CType::Ptr {
    to: Ty::I8,
    written: true,
};

/// The types of the parameters of a function.
pub static PUT: [CType; 2] = [WRITTEN, NUMBER];

pub static COPY: [CType; 2] = [WRITTEN, READ];

pub static BOTH: [CType; 2] = [WRITTEN, WRITTEN];

pub static ONE: [CType; 1] = [WRITTEN];

pub static LOOK: [CType; 1] = [READ];

pub static SMALL: [CType; 1] = [BYTES];

/// The kinds of its parameters: by default each lane has its own argument.
pub static OWN: [Param; 0] = [];

pub static ALONG: [Param; 1] = [Param {
    kind: Kind::Linear(Step::By(4)),
    align: None,
}];

pub static BACK: [Param; 1] = [Param {
    kind: Kind::Linear(Step::By(-8)),
    align: None,
}];

pub static BY_ARGUMENT: [Param; 2] = [
    Param {
        kind: Kind::Linear(Step::Arg(1)),
        align: None,
    },
    Param {
        kind: Kind::Uniform,
        align: None,
    },
];

pub static SAME: [Param; 1] = [Param {
    kind: Kind::Uniform,
    align: None,
}];
