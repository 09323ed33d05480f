// Bytes that come in pieces.

ghost use Rattle.std.specs.Prelude.{◌≡◌, ◌<◌, ◌≤◌, ◌^◌, ℕ, ◌+◌, ◌-◌, [], ◌++◌, List, length, Some, None, true, Err, OnOk, IfErr, IfSome};
ghost use Rattle.vk_format.specs.Format.{Format, advance, told};

use crate::fields::Fields;
use std::alloc::Global;
use std::mem;
use vk_code_read::front::refused;
use vk_format::{ObjectFail, ObjectRule};

/// What has come of a table of fields beside what the fields say: the bytes of a field that is not whole. No other byte is kept.
#[derive(Drop)]
pub struct Pieces {
    pub(crate) alloc: Global,
    /// Where the field begins that comes next, and the bytes of it that have come.
    pub at: u64,
    pub pending: Vec<u8>,
    pub failed: Option<ObjectFail>,
}

impl Pieces {
    ghost use Rattle.vk_format.specs.declared.rules.ObjectFail.TheVariants as ObjectFail;
    ghost use Rattle.vk_pieces.specs.Fields.{IsField};
    ghost use Rattle.vk_pieces.specs.Standing.{IsEnded, IsTold, Stands, TellsFail, fed, left_now, onward};

    /// No byte has come.
    pub fn new<R>(alloc: Global) -> Pieces
        ensures stands { (f : Format R) (width : ℕ) → 0 < width → IsField f width → Stands f f result [] }
        ensures fed { fed result ≡ 0 }
        ensures empty { result.pending.items ≡ [] }
    {
        Pieces {
            alloc,
            at: 0,
            pending: Vec::new(alloc),
            failed: None,
        }
    }

    // The next field is whole.
    fn step<F: Fields>(&mut self, fields: &mut F, field: &[u8]) -> Result<(), ObjectFail>
        requires empty { self.old.pending.items ≡ [] }
        requires width { length field.now ≡ F.width fields.old }
        requires wanted { 0 < F.width fields.old }
        requires place { self.old.at + length field.now < 2 ^ 64 }
        requires none { self.old.failed ≡ None }
        ensures ok { OnOk result ((more : List ℕ) → advance (F.left fields.old self.old.at) self.old.at (field.now ++ more) ≡ onward (F.left fields.new self.new.at) self.new more) }
        ensures at { OnOk result (fed self.new ≡ self.old.at + length field.now) }
        ensures empty { self.new.pending.items ≡ [] }
        ensures none { OnOk result (self.new.failed ≡ None) }
        ensures failed { IfErr result (λ e. self.new.failed ≡ Some e) }
        ensures err { IfErr result (λ e. (more : List ℕ) → TellsFail e (advance (F.left fields.old self.old.at) self.old.at (field.now ++ more))) }
    {
        match fields.step(self.at, field) {
            Err(e) => {
                self.failed = Some(e);
                Err(e)
            }
            Ok(()) => {
                self.at += field.len() as u64;
                Ok(())
            }
        }
    }

    // The next field is whole with these bytes.
    fn take<F: Fields>(&mut self, fields: &mut F, front: &[u8]) -> Result<(), ObjectFail>
        requires width { length self.old.pending.items + length front.now ≡ F.width fields.old }
        requires wanted { 0 < F.width fields.old }
        requires place { self.old.at + F.width fields.old < 2 ^ 64 }
        requires none { self.old.failed ≡ None }
        ensures ok { OnOk result ((more : List ℕ) → onward (F.left fields.old self.old.at) self.old (front.now ++ more) ≡ onward (F.left fields.new self.new.at) self.new more) }
        ensures at { OnOk result (fed self.new ≡ fed self.old + length front.now) }
        ensures empty { self.new.pending.items ≡ [] }
        ensures none { OnOk result (self.new.failed ≡ None) }
        ensures failed { IfErr result (λ e. self.new.failed ≡ Some e) }
        ensures err { IfErr result (λ e. (more : List ℕ) → TellsFail e (onward (F.left fields.old self.old.at) self.old (front.now ++ more))) }
    {
        if self.pending.is_empty() {
            return self.step(fields, front);
        }
        let mut field = mem::replace(&mut self.pending, Vec::new(self.alloc));
        match field.extend_from_slice(front) {
            Ok(()) => self.step(fields, &field),
            Err(_) => {
                self.failed = Some(ObjectFail::Memory);
                Err(ObjectFail::Memory)
            }
        }
    }

    // The next field is not whole with these bytes.
    fn keep<F: Fields>(&mut self, fields: &F, bytes: &[u8]) -> Result<(), ObjectFail>
        requires width { length self.old.pending.items + length bytes.now < F.width fields.now }
        requires none { self.old.failed ≡ None }
        ensures ok { OnOk result (onward (F.left fields.now self.old.at) self.old bytes.now ≡ left_now (F.left fields.now self.new.at) self.new) }
        ensures quiet { OnOk result (told (left_now (F.left fields.now self.new.at) self.new) ≡ None) }
        ensures at { OnOk result (fed self.new ≡ fed self.old + length bytes.now) }
        ensures fits { length self.new.pending.items < F.width fields.now }
        ensures none { OnOk result (self.new.failed ≡ None) }
        ensures failed { IfErr result (λ e. self.new.failed ≡ Some e) }
        ensures err { IfErr result (λ e. (more : List ℕ) → TellsFail e (onward (F.left fields.now self.old.at) self.old (bytes.now ++ more))) }
    {
        match self.pending.extend_from_slice(bytes) {
            Ok(()) => Ok(()),
            Err(_) => {
                self.failed = Some(ObjectFail::Memory);
                Err(ObjectFail::Memory)
            }
        }
    }

    // No field is left, and these bytes are.
    fn left_over<F: Fields>(&mut self, fields: &F, bytes: &[u8]) -> Result<(), ObjectFail>
        requires whole { F.is_whole fields.now ≡ true }
        requires fits { length self.old.pending.items ≤ F.width fields.now - 1 }
        requires none { self.old.failed ≡ None }
        ensures ok { OnOk result (onward (F.left fields.now self.old.at) self.old bytes.now ≡ left_now (F.left fields.now self.new.at) self.new) }
        ensures quiet { OnOk result (told (left_now (F.left fields.now self.new.at) self.new) ≡ None) }
        ensures at { OnOk result (fed self.new ≡ fed self.old + length bytes.now) }
        ensures same { self.new.pending ≡ self.old.pending }
        ensures none { OnOk result (self.new.failed ≡ None) }
        ensures failed { IfErr result (λ e. self.new.failed ≡ Some e) }
        ensures err { IfErr result (λ e. (more : List ℕ) → TellsFail e (onward (F.left fields.now self.old.at) self.old (bytes.now ++ more))) }
    {
        if bytes.is_empty() {
            return Ok(());
        }
        let e = refused(self.at, ObjectRule::O5);
        self.failed = Some(e);
        Err(e)
    }

    // All bytes of the piece are taken.
    fn goes<F: Fields>(&mut self, fields: &mut F, piece: &[u8]) -> Result<(), ObjectFail>
        requires fits { length self.old.pending.items ≤ F.width fields.old - 1 }
        requires none { self.old.failed ≡ None }
        requires place { fed self.old + length piece.now < 2 ^ 64 }
        ensures ok { OnOk result (onward (F.left fields.old self.old.at) self.old piece.now ≡ left_now (F.left fields.new self.new.at) self.new) }
        ensures quiet { OnOk result (told (left_now (F.left fields.new self.new.at) self.new) ≡ None) }
        ensures fits { length self.new.pending.items ≤ F.width fields.new - 1 }
        ensures none { OnOk result (self.new.failed ≡ None) }
        ensures failed { IfErr result (λ e. self.new.failed ≡ Some e) }
        ensures err { IfErr result (λ e. (more : List ℕ) → TellsFail e (onward (F.left fields.old self.old.at) self.old (piece.now ++ more))) }
    {
        let mut rest = piece;
        loop {
            if fields.is_whole() {
                return self.left_over(fields, rest);
            }
            let width = fields.width();
            if width == 0 {
                // Does not come: some field is left.
                self.failed = Some(ObjectFail::Memory);
                return Err(ObjectFail::Memory);
            }
            let missing = width - self.pending.len();
            if rest.len() < missing {
                return self.keep(fields, rest);
            }
            let (front, after) = rest.split_at(missing);
            match self.take(fields, front) {
                Err(e) => return Err(e),
                Ok(()) => {}
            }
            rest = after;
        }
    }

    // Whether so many bytes may come: places are numbers of 64 bits.
    fn has_room(&self, n: usize) -> bool
        ensures { result ≡ true → fed self.now + n < 2 ^ 64 }
    {
        let room = u64::MAX - self.at;
        let n = n as u64;
        n <= room && self.pending.len() as u64 <= room - n
    }

    /// Takes the next piece, of bytes that may go on, and answers by all bytes that came, in whatever pieces. A fault stays the
    /// answer, and so does want of memory, which is the answer too where a place would have more than 64 bits.
    pub fn feed<F: Fields>(&mut self, fields: &mut F, piece: &[u8]) -> Result<(), ObjectFail>
        requires fits { length self.old.pending.items ≤ F.width fields.old - 1 }
        ensures fits { length self.new.pending.items ≤ F.width fields.new - 1 }
        ensures fed { (f : Format F.Rows) (bytes : List ℕ) → Stands f (F.left fields.old self.old.at) self.old bytes → Stands f (F.left fields.new self.new.at) self.new (bytes ++ piece.now) }
        ensures told { (f : Format F.Rows) (bytes : List ℕ) → Stands f (F.left fields.new self.new.at) self.new bytes → IsTold result (advance f 0 bytes) }
        ensures same { IfSome self.old.failed (λ fail. result ≡ Err fail) }
        ensures kept { IfErr result (λ fail. self.new.failed ≡ Some fail) }
    {
        match self.failed {
            Some(e) => return Err(e),
            None => {}
        }
        if !self.has_room(piece.len()) {
            self.failed = Some(ObjectFail::Memory);
            return Err(ObjectFail::Memory);
        }
        self.goes(fields, piece)
    }

    /// The bytes end here.
    pub fn end<F: Fields>(&self, fields: &F) -> Result<(), ObjectFail>
        requires fits { length self.now.pending.items ≤ F.width fields.now - 1 }
        ensures { (f : Format F.Rows) (bytes : List ℕ) → Stands f (F.left fields.now self.now.at) self.now bytes → IsEnded result f (F.rows fields.now) bytes }
    {
        match self.failed {
            Some(e) => return Err(e),
            None => {}
        }
        if fields.is_whole() {
            return Ok(());
        }
        if fields.width() == 0 {
            // Does not come: some field is left.
            return Err(ObjectFail::Memory);
        }
        match self.at.checked_add(self.pending.len() as u64) {
            Some(at) => Err(refused(at, ObjectRule::O4)),
            None => Err(ObjectFail::Memory),
        }
    }
}
