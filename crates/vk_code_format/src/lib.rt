//! Lane code as bytes: its rows, and the table of their fields, one for objects and images.
#![tactic(auto)]

pub mod rows;

pub use rows::{
    ArgRow, BodyRow, CodeRow, FrontRow, LoopRow, ParamKind, ParamRow, RoutineRow, ShapeKind,
    SlotRow,
};
