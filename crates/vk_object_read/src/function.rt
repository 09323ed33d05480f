// A function, field by field.

ghost use Rattle.std.specs.Prelude.{◌≡◌, ◌<◌, ◌+◌, ℕ, List, length, IfOk, IfSome};
ghost use Rattle.std.specs.Option.{option_map};
ghost use Rattle.vk_kinds.specs.Sizes.{head_types};
ghost use Rattle.vk_format.specs.Format.{Format};
ghost use Rattle.vk_format.specs.Codec.{only_if, read_after};
ghost use Rattle.vk_code_format.specs.declared.rows.CodeRow.{CodeRow};
ghost use Rattle.vk_code_format.specs.Codes.{code};
ghost use Rattle.vk_code_format.specs.Fields.{last_of, value_type};
ghost use Rattle.vk_code_read.specs.Inner.Left.{Stepped};
ghost use Rattle.vk_code_read.specs.Inner.LeftCode.{code_left, code_row, code_width};
ghost use Rattle.vk_object_format.specs.declared.rows.RawFunction.{RawFunction};
ghost use Rattle.vk_object_format.specs.Object.{directive, function, function_codes, is_directive_after};
ghost use Rattle.vk_object_format.specs.Values.{head_of};
ghost use Rattle.vk_object_read.specs.declared.function.FunctionStage.TheVariants as FunctionStage;
ghost use Rattle.vk_object_read.specs.Inner.LeftData.{Settles};
ghost use Rattle.vk_object_read.specs.Inner.LeftFunction.{after_codes, after_directives, after_lanes, after_params, after_types, function_left, function_width, param_after, place_of_codes, type_next};

use crate::data::comes_after;
use std::alloc::Global;
use std::mem;
use vk_code_format::{CodeRow, ParamKind, ParamRow, RoutineRow};
use vk_code_read::code::CodeStage;
use vk_code_read::fields::{flag_of, is_good_simdlen, simdlen_of, value_type_of};
use vk_code_read::front::refused;
use vk_code_read::{CodeFeed, CodePlace, FrontFeed};
use vk_format::fields::{u8_of, u16_of, u32_of};
use vk_format::{Items, ObjectFail, ObjectRule};
use vk_kinds::{Branch, CType, Head, Target, Types};
use vk_memory::Memory;
use vk_object_directives::is_directive_after;
use vk_object_fields::fields::{branch_of, result_type_of};
use vk_object_fields::parameters::{align_fits, align_of, kind_fits, param_kind_of, value_fits};
use vk_object_format::{RawCodes, RawDirective, RawFunction};

/// Which field comes next. Counts of what is left are without the item that the field belongs to.
#[derive(Clone, Copy)]
pub enum FunctionStage {
    Symbol,
    ResultType,
    ParamCount,
    Param(u8),
    DirectiveCount,
    Branch(u16),
    Simdlen(u16),
    Kind(u16, usize),
    Value(u16, usize, ParamKind),
    Align(u16, usize, ParamKind, u32),
    Defined,
    Scalar,
    Lane(usize),
    Done,
}

/// A function of which some fields have come.
#[derive(Drop)]
pub struct FunctionFeed {
    pub(crate) alloc: Global,
    pub target: Target,
    /// How many symbols and functions there are, and the symbol of the last function.
    pub symbols: usize,
    pub functions: u32,
    pub last: Option<u32>,
    pub stage: FunctionStage,
    /// The function so far, without its codes.
    pub function: RawFunction,
    /// The directive so far, and where it begins.
    pub directive: RawDirective,
    pub start: u64,
    /// The scalar code, the codes of the directives so far, and the code so far.
    pub scalar: CodeRow,
    pub lanes: Items<CodeRow>,
    pub code: CodeFeed,
}

fn no_code(alloc: Global) -> CodeRow {
    let front = FrontFeed::new(alloc, CodePlace::Image { codes: 0 }).front;
    CodeRow {
        routine: RoutineRow {
            front,
            instrs: Items::new(alloc),
        },
        loops: Items::new(alloc),
    }
}

fn no_directive(alloc: Global) -> RawDirective {
    RawDirective {
        branch: Branch::Both,
        simdlen: None,
        params: Items::new(alloc),
    }
}

// The code that has come whole.
fn row_of(code: CodeFeed) -> CodeRow
    ensures { result ≡ code_row code.front.front code.loops code.instrs }
{
    let feed = code.front;
    let instrs = code.instrs;
    let loops = code.loops;
    let front = feed.front;
    CodeRow {
        routine: RoutineRow { front, instrs },
        loops,
    }
}

// The types of a function of at most 64 parameters.
fn head_of(function: &RawFunction) -> Option<Head>
    ensures some { IfSome result (λ h. head_types h ≡ head_of function.now) }
{
    let mut params = Types::new();
    if params
        .try_extend_from_slice(function.params.as_slice())
        .is_err()
    {
        return None;
    }
    Some(Head {
        result: function.result,
        params,
    })
}

impl FunctionFeed {
    /// A function of which nothing has come, among so many symbols and functions, behind one with the last symbol.
    pub fn new<R>(
        alloc: Global,
        target: Target,
        symbols: usize,
        functions: u32,
        last: Option<u32>,
    ) -> FunctionFeed
        ensures { (before : List RawFunction) (at : ℕ) (next : RawFunction → ℕ → Format R) → last ≡ option_map (λ f. f.symbol) (last_of before)
            → function_left result at next ≡ (function target symbols functions before).read at next }
    {
        FunctionFeed {
            alloc,
            target,
            symbols,
            functions,
            last,
            stage: FunctionStage::Symbol,
            function: RawFunction {
                symbol: 0,
                result: CType::Void,
                params: Items::new(alloc),
                directives: Items::new(alloc),
                codes: None,
            },
            directive: no_directive(alloc),
            start: 0,
            scalar: no_code(alloc),
            lanes: Items::new(alloc),
            code: CodeFeed::new::<R>(alloc, CodePlace::Image { codes: 0 }),
        }
    }

    /// How many bytes the next field has.
    pub fn width(&self) -> usize
        ensures { result ≡ function_width self.now }
    {
        match self.stage {
            FunctionStage::Symbol => 4,
            FunctionStage::ResultType => 1,
            FunctionStage::ParamCount => 1,
            FunctionStage::Param(_) => 1,
            FunctionStage::DirectiveCount => 2,
            FunctionStage::Branch(_) => 1,
            FunctionStage::Simdlen(_) => 2,
            FunctionStage::Kind(_, _) => 1,
            FunctionStage::Value(_, _, _) => 4,
            FunctionStage::Align(_, _, _, _) => 4,
            FunctionStage::Defined => 1,
            FunctionStage::Scalar => self.code.width(),
            FunctionStage::Lane(_) => self.code.width(),
            FunctionStage::Done => 0,
        }
    }

    // So many parameters are left.
    fn types<R>(&mut self, left: u8)
        ensures { (at : ℕ) (next : RawFunction → ℕ → Format R) → function_left self.new at next
            ≡ read_after (λ before. value_type) left self.old.function.params at (after_types self.old.target self.old.functions self.old.function next) }
    {
        self.stage = if left == 0 {
            FunctionStage::DirectiveCount
        } else {
            FunctionStage::Param(left - 1)
        };
    }

    // So many directives are left.
    fn directives<R>(&mut self, left: u16)
        ensures { (at : ℕ) (next : RawFunction → ℕ → Format R) → function_left self.new at next
            ≡ read_after (directive self.old.target (head_of self.old.function)) left self.old.function.directives at (after_directives self.old.functions self.old.function next) }
    {
        self.stage = if left == 0 {
            FunctionStage::Defined
        } else {
            FunctionStage::Branch(left - 1)
        };
    }

    // Whether the directive may stand behind those before it.
    fn fits(&self) -> Result<bool, Memory>
        ensures { IfOk result (λ fits. fits ≡ is_directive_after self.now.target (head_of self.now.function) self.now.function.directives self.now.directive) }
    {
        match head_of(&self.function) {
            Some(head) => Ok(is_directive_after(
                self.target,
                &head,
                self.function.directives.as_slice(),
                &self.directive,
            )),
            // Does not come: there are at most 64 parameters.
            None => Err(Memory),
        }
    }

    // The directive is whole; so many are left after it.
    fn finish<R>(&mut self, left: u16) -> Result<(), ObjectFail>
        ensures { (at : ℕ) (next : RawFunction → ℕ → Format R) → Settles result
            (after_params self.old.target self.old.functions self.old.function self.old.start left self.old.directive next self.old.directive.params at)
            (function_left self.new at next) }
    {
        let fits = self.fits()?;
        if !fits {
            return Err(refused(self.start, ObjectRule::O7));
        }
        let directive = mem::replace(&mut self.directive, no_directive(self.alloc));
        self.function.directives.push(directive)?;
        self.directives::<R>(left);
        Ok(())
    }

    // So many parameters of the directive are left, and so many directives after it.
    fn params<R>(&mut self, left: u16, params: usize) -> Result<(), ObjectFail>
        ensures { (at : ℕ) (next : RawFunction → ℕ → Format R) → Settles result
            (read_after (param_after self.old.function) params self.old.directive.params at (after_params self.old.target self.old.functions self.old.function self.old.start left self.old.directive next))
            (function_left self.new at next) }
    {
        if params == 0 {
            return self.finish::<R>(left);
        }
        self.stage = FunctionStage::Kind(left, params - 1);
        Ok(())
    }

    // A code of the function, of which nothing has come.
    fn code_feed<R>(&self) -> CodeFeed
        ensures { (at : ℕ) (next : CodeRow → ℕ → Format R) → code_left result at next ≡ (code (place_of_codes self.now.functions self.now.function)).read at next }
    {
        let functions = self.functions;
        let params = self.function.params.len();
        CodeFeed::new::<R>(self.alloc, CodePlace::Object { functions, params })
    }

    // So many codes of directives are left.
    fn lanes<R>(&mut self, left: usize)
        ensures { (at : ℕ) (next : RawFunction → ℕ → Format R) → function_left self.new at next
            ≡ read_after (λ before. code (place_of_codes self.old.functions self.old.function)) left self.old.lanes at (after_lanes self.old.function self.old.scalar next) }
    {
        if left != 0 {
            self.code = self.code_feed::<R>();
            self.stage = FunctionStage::Lane(left - 1);
            return;
        }
        let scalar = mem::replace(&mut self.scalar, no_code(self.alloc));
        let lanes = mem::replace(&mut self.lanes, Items::new(self.alloc));
        self.function.codes = Some(RawCodes { scalar, lanes });
        self.stage = FunctionStage::Done;
    }

    // The scalar code goes on with a field.
    fn scalar<R>(&mut self, at: u64, field: &[u8]) -> Result<(), ObjectFail>
        requires stage { self.old.stage ≡ FunctionStage.Scalar }
        requires width { length field.now ≡ code_width self.old.code }
        requires wanted { 0 < code_width self.old.code }
        ensures { (next : RawFunction → ℕ → Format R) → Stepped (function_left self.old at next) field.now result (function_left self.new (at + code_width self.old.code) next) }
    {
        match self.code.step::<R>(at, field) {
            Err(fail) => return Err(fail),
            Ok(()) => {}
        }
        if let CodeStage::Done = self.code.stage {
            let none = CodeFeed::new::<R>(self.alloc, CodePlace::Image { codes: 0 });
            let code = mem::replace(&mut self.code, none);
            self.scalar = row_of(code);
            self.lanes = Items::new(self.alloc);
            let left = self.function.directives.len();
            self.lanes::<R>(left);
        }
        Ok(())
    }

    // The code of a directive goes on with a field, and so many come after it.
    fn lane<R>(&mut self, left: usize, at: u64, field: &[u8]) -> Result<(), ObjectFail>
        requires stage { self.old.stage ≡ FunctionStage.Lane left }
        requires width { length field.now ≡ code_width self.old.code }
        requires wanted { 0 < code_width self.old.code }
        ensures { (next : RawFunction → ℕ → Format R) → Stepped (function_left self.old at next) field.now result (function_left self.new (at + code_width self.old.code) next) }
    {
        match self.code.step::<R>(at, field) {
            Err(fail) => return Err(fail),
            Ok(()) => {}
        }
        if let CodeStage::Done = self.code.stage {
            let none = CodeFeed::new::<R>(self.alloc, CodePlace::Image { codes: 0 });
            let code = mem::replace(&mut self.code, none);
            self.lanes.push(row_of(code))?;
            self.lanes::<R>(left);
        }
        Ok(())
    }

    // Whether the function is defined.
    fn defined<R>(&mut self, defined: bool)
        ensures { (at : ℕ) (next : RawFunction → ℕ → Format R) → function_left self.new at next
            ≡ (only_if defined (function_codes (place_of_codes self.old.functions self.old.function) (length self.old.function.directives))).read at (after_codes self.old.function next) }
    {
        if defined {
            self.code = self.code_feed::<R>();
            self.stage = FunctionStage::Scalar;
        } else {
            self.function.codes = None;
            self.stage = FunctionStage::Done;
        }
    }

    /// Takes the next field, which stands at this place.
    pub fn step<R>(&mut self, at: u64, field: &[u8]) -> Result<(), ObjectFail>
        requires width { length field.now ≡ function_width self.old }
        requires wanted { 0 < function_width self.old }
        ensures { (next : RawFunction → ℕ → Format R) → Stepped (function_left self.old at next) field.now result (function_left self.new (at + function_width self.old) next) }
    {
        match self.stage {
            FunctionStage::Symbol => {
                let symbol = u32_of(field);
                if self.symbols <= symbol as usize {
                    return Err(refused(at, ObjectRule::O8));
                }
                if !comes_after(self.last, symbol) {
                    return Err(refused(at, ObjectRule::O6));
                }
                self.function.symbol = symbol;
                self.stage = FunctionStage::ResultType;
            }
            FunctionStage::ResultType => match result_type_of(u8_of(field)) {
                None => return Err(refused(at, ObjectRule::O7)),
                Some(result) => {
                    self.function.result = result;
                    self.stage = FunctionStage::ParamCount;
                }
            },
            FunctionStage::ParamCount => {
                let count = u8_of(field);
                if 64 < count {
                    return Err(refused(at, ObjectRule::O7));
                }
                self.function.params = Items::new(self.alloc);
                self.types::<R>(count);
            }
            FunctionStage::Param(left) => match value_type_of(u8_of(field)) {
                None => return Err(refused(at, ObjectRule::O7)),
                Some(ctype) => {
                    self.function.params.push(ctype)?;
                    self.types::<R>(left);
                }
            },
            FunctionStage::DirectiveCount => {
                self.function.directives = Items::new(self.alloc);
                self.directives::<R>(u16_of(field));
            }
            FunctionStage::Branch(left) => match branch_of(u8_of(field)) {
                None => return Err(refused(at, ObjectRule::O7)),
                Some(branch) => {
                    self.start = at;
                    self.directive.branch = branch;
                    self.stage = FunctionStage::Simdlen(left);
                }
            },
            FunctionStage::Simdlen(left) => {
                let simdlen = simdlen_of(u16_of(field));
                if !is_good_simdlen(simdlen) {
                    return Err(refused(at, ObjectRule::O7));
                }
                self.directive.simdlen = simdlen;
                self.directive.params = Items::new(self.alloc);
                let params = self.function.params.len();
                match self.params::<R>(left, params) {
                    Err(fail) => return Err(fail),
                    Ok(()) => {}
                }
            }
            FunctionStage::Kind(left, params) => match param_kind_of(u8_of(field)) {
                None => return Err(refused(at, ObjectRule::O7)),
                Some(kind) => {
                    if !kind_fits(self.next_type(), kind) {
                        return Err(refused(at, ObjectRule::O7));
                    }
                    self.stage = FunctionStage::Value(left, params, kind);
                }
            },
            FunctionStage::Value(left, params, kind) => {
                let value = u32_of(field);
                if !value_fits(self.next_type(), kind, value) {
                    return Err(refused(at, ObjectRule::O7));
                }
                self.stage = FunctionStage::Align(left, params, kind, value);
            }
            FunctionStage::Align(left, params, kind, value) => {
                let align = align_of(u32_of(field));
                if !align_fits(self.next_type(), align) {
                    return Err(refused(at, ObjectRule::O7));
                }
                self.directive.params.push(ParamRow { kind, value, align })?;
                match self.params::<R>(left, params) {
                    Err(fail) => return Err(fail),
                    Ok(()) => {}
                }
            }
            FunctionStage::Defined => match flag_of(u8_of(field)) {
                None => return Err(refused(at, ObjectRule::O7)),
                Some(defined) => self.defined::<R>(defined),
            },
            FunctionStage::Scalar => match self.scalar::<R>(at, field) {
                Err(fail) => return Err(fail),
                Ok(()) => {}
            },
            FunctionStage::Lane(left) => match self.lane::<R>(left, at, field) {
                Err(fail) => return Err(fail),
                Ok(()) => {}
            },
            FunctionStage::Done => {}
        }
        Ok(())
    }

    // The type of the parameter that comes next.
    fn next_type(&self) -> Option<CType>
        ensures { result ≡ type_next self.now.function self.now.directive }
    {
        let types = self.function.params.as_slice();
        let at = self.directive.params.len();
        types.get(at).copied()
    }
}
