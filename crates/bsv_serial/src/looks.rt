ghost use Rattle.std.specs.Prelude.{◌≡◌, ◌<◌, IfOk, Some, map, false, slice_get, length};
ghost use Rattle.bsv_prim.specs.Table.{ArgsFit};
ghost use Rattle.bsv_design.specs.parts.Kinds.{kind_table};
ghost use Rattle.bsv_design.specs.scheme.States.{part_at};
ghost use Rattle.bsv_design.specs.scheme.Schemes.{is_open, result_of};
ghost use Rattle.bsv_design.specs.scheme.Traces.{acts};
ghost use Rattle.bsv_guard.specs.Fitting.{IsFitCall};
ghost use Rattle.bsv_serial.specs.Sights as spec;

use crate::calls_made::{MadeCall, MadeCalls};
use bsv_bits::{OutOfMemory, Word};
use bsv_design::{Kind, NamedPart};
use bsv_prim::{Part, Primitive};
use std::alloc::Global;

/// A part, and the calls that are made on it.
#[derive(Clone, Copy)]
pub struct Sight<'a> {
    pub kind: &'a Kind,
    pub plain: &'a Part,
    pub calls_made: &'a [MadeCall],
}

impl Sight<'_> {
    /// Whether the method sees none of the calls.
    fn sees_none(self, method: u32) -> bool
        requires method { method < (kind_table self.kind.now).methods }
        requires methods { spec.AreMethods self.kind.now self.calls_made.now }
        ensures { result ≡ spec.sees_none self.entry.kind.now method self.entry.calls_made.now }
    {
        let mut rest = self.calls_made;
        while let Some((call, after)) = rest.split_first() {
            if self.kind.sees(call.method, method) {
                return false;
            }
            rest = after;
        }
        true
    }

    /// A copy of the part, after those of the calls that the method sees.
    fn after_seen(self, alloc: Global, method: u32) -> Result<Part, OutOfMemory>
        requires { spec.CanLook self.kind.now method self.plain.now self.calls_made.now }
        ensures { IfOk result (λ part. part
            ≡ spec.after_seen self.entry.kind.now method self.entry.plain.now
            self.entry.calls_made.now) }
    {
        let mut part = self.plain.copy(alloc)?;
        let mut rest = self.calls_made;
        while let Some((call, after)) = rest.split_first() {
            if self.kind.sees(call.method, method) {
                self.kind
                    .apply(call.method, &mut part, call.args.as_slice());
            }
            rest = after;
        }
        Ok(part)
    }

    /// Whether the method may be called on what it looks at.
    pub fn guard(self, alloc: Global, method: u32) -> Result<bool, OutOfMemory>
        requires { spec.CanLook self.kind.now method self.plain.now self.calls_made.now }
        ensures { IfOk result (λ truth. truth ≡ (kind_table self.entry.kind.now).guard method
            (spec.after_seen self.entry.kind.now method self.entry.plain.now
            self.entry.calls_made.now)) }
    {
        if self.sees_none(method) {
            return Ok(self.kind.guard(method, self.plain));
        }
        let part = self.after_seen(alloc, method)?;
        Ok(self.kind.guard(method, &part))
    }

    /// What the method gives for these arguments on what it looks at.
    pub fn result(self, alloc: Global, method: u32, args: &[Word]) -> Result<Word, OutOfMemory>
        requires look { spec.CanLook self.kind.now method self.plain.now self.calls_made.now }
        requires value { (kind_table self.kind.now).is_action method ≡ false }
        requires args { ArgsFit (kind_table self.kind.now) method args.now }
        ensures { IfOk result (λ word. word ≡ (kind_table self.entry.kind.now).result method
            (spec.after_seen self.entry.kind.now method self.entry.plain.now
            self.entry.calls_made.now)
            args.now) }
    {
        if self.sees_none(method) {
            return Ok(self.kind.result(method, self.plain, args));
        }
        let part = self.after_seen(alloc, method)?;
        Ok(self.kind.result(method, &part, args))
    }
}

/// What the methods of parts look at: the part after just those of the calls made on it that the method sees.
#[derive(Clone, Copy)]
pub struct Looks<'a> {
    pub alloc: Global,
    pub parts: &'a [NamedPart],
    pub state: &'a [Part],
    /// The calls made on each part, or on none where there is no list.
    pub calls_made: &'a [MadeCalls],
}

impl<'a> Looks<'a> {
    ghost use Rattle.bsv_serial.specs.AtHand.{kinds, look};

    fn made_on(self, part: u32) -> &'a [MadeCall]
        ensures { result.now ≡ spec.or_none (slice_get self.entry.calls_made.now part) }
    {
        match self.calls_made.get(part as usize) {
            Some(calls_made) => calls_made.as_slice(),
            None => &[],
        }
    }

    /// The part of this place, and the calls that are made on it.
    fn at(self, part: u32) -> Sight<'a>
        requires named { part < length self.parts.now }
        requires there { part < length self.state.now }
        ensures kind { slice_get (kinds self.entry.parts.now) part ≡ Some result.kind.now }
        ensures plain { result.plain.now ≡ part_at self.entry.state.now part }
        ensures calls_made { result.calls_made.now
            ≡ spec.or_none (slice_get self.entry.calls_made.now part) }
    {
        Sight {
            kind: &self.parts[part as usize].kind,
            plain: &self.state[part as usize],
            calls_made: self.made_on(part),
        }
    }

    /// Whether the method may be called on what it looks at.
    #[tactic(auto, unfolding(crate::specs::Sights::look_with))]
    pub fn guard(self, part: u32, method: u32) -> Result<bool, OutOfMemory>
        requires { spec.CanLookAt (kinds self.parts.now) self.state.now self.calls_made.now
            (record { part = part; method = method }) }
        ensures { IfOk result (λ truth. truth ≡ is_open (kinds self.entry.parts.now)
            (look self.entry) (record { part = part; method = method })) }
    {
        self.at(part).guard(self.alloc, method)
    }

    /// What the method gives for these arguments on what it looks at.
    #[tactic(auto, unfolding(crate::specs::Sights::look_with))]
    pub fn result(self, part: u32, method: u32, args: &[Word]) -> Result<Word, OutOfMemory>
        requires look { spec.CanLookAt (kinds self.parts.now) self.state.now self.calls_made.now
            (record { part = part; method = method }) }
        requires value { acts (slice_get (kinds self.parts.now) part) method ≡ false }
        requires args { IsFitCall (slice_get (kinds self.parts.now) part) method args.now }
        ensures { IfOk result
            (λ word. word ≡ result_of (slice_get (kinds self.entry.parts.now) part) method
            (look self.entry (record { part = part; method = method })) args.now) }
    {
        self.at(part).result(self.alloc, method, args)
    }
}
