//! The summary of the multi-minmax class.

ghost use Rattle.std.specs.Prelude.{◌≡◌, ◌≢◌, true, false, Ok, Err, OnOk, OnErr, IsOk, IfOk, IfErr, MatchResult, ◌++◌, ◌≤◌, ◌+◌, ◌*◌, length, drop};
ghost use Rattle.opclass_multi.specs.Kept.{Kept, IsLimit, IsSummary, nothing_yet, with_number, united};
ghost use Rattle.opclass_multi.specs.Consistent.{consistent};
ghost use Rattle.opclass_multi.specs.Encoding.{bytes_of};
ghost use Rattle.opclass_multi.specs.Reading.{summary_in};

use crate::bytes::{read, write};
use crate::conditions::may_meet;
use crate::element::Element;
use crate::widen::{unite, widen};
use block_model::{Cond, NoMemory};
use opclass_api::Malformed;
use std::alloc::Global;
use std::boxed::BoxedSlice;
use std::marker::Model;

/// Points and intervals in ascending order, no two with a common number, that count at most a limit: a point 1, an
/// interval 2. Its room is for the elements of two summaries and one more, and for those that are read, from its making on: no
/// call takes or gives back memory.
#[derive(Debug, Drop)]
pub struct Summary {
    limit: u16,
    elements: Vec<Element>,
    spare: BoxedSlice<Element>,
}

impl Model for Summary {
    ghost use Rattle.opclass_multi.specs.Kept.{Kept};

    ghost Value = { Kept };

    ghost use Rattle.std.specs.Prelude.{◌≡◌, ◌+◌, ◌*◌, length, vec_capacity};
    ghost use Rattle.std.specs.Box.{boxed_slice_items};
    ghost use Rattle.opclass_multi.specs.Kept.{IsLimit, IsSummary};

    ghost view = { λ a. record { limit = a.limit; elements = a.elements.items } };

    ghost invariant = { λ a. IsLimit a.limit × IsSummary a.limit (record { limit = a.limit; elements = a.elements.items }) × (vec_capacity a.elements ≡ 2 * a.limit + 1) × (length (boxed_slice_items a.spare) ≡ a.limit) };
}

impl Summary {
    /// The summary of no value, with room for the elements of two summaries. `Err` where there is no memory for it.
    pub(crate) fn new(alloc: Global, limit: u16) -> Result<Summary, NoMemory>
        requires { IsLimit limit }
        ensures { IfOk result (λ s. s ≡ nothing_yet limit) }
    {
        let elements = Vec::with_capacity(alloc, 2 * usize::from(limit) + 1)?;
        let spare = vec![in alloc; Element::point(0); usize::from(limit)]?;
        Ok(Summary {
            limit,
            elements,
            spare: spare.into_boxed_slice(),
        })
    }

    /// Does nothing; tells its caller that every summary is of its limit.
    pub fn known(&self)
        ensures { IsSummary self.now.limit self.now }
    {
        // The toolchain opens the invariant where a field is read.
        let _ = &self.elements;
    }

    /// The elements, in ascending order.
    pub fn elements(&self) -> &[Element]
        ensures { result.now ≡ self.now.elements }
    {
        self.elements.as_slice()
    }

    /// Widens it by a number; answers whether it changed.
    pub(crate) fn add(&mut self, v: i64) -> bool
        ensures lawful { IsSummary self.old.limit self.new }
        ensures widened { self.new ≡ with_number self.old v }
        ensures same { result ≡ false → self.new ≡ self.old }
        ensures changed { result ≡ true → self.new ≢ self.old }
    {
        widen(&mut self.elements, usize::from(self.limit), v)
    }

    /// Widens it by another of the same limit; answers whether it changed.
    pub(crate) fn unite(&mut self, other: &Summary) -> bool
        requires { self.old.limit ≡ other.now.limit }
        ensures lawful { IsSummary self.old.limit self.new }
        ensures widened { self.new ≡ united self.old other.now }
        ensures same { result ≡ false → self.new ≡ self.old }
        ensures changed { result ≡ true → self.new ≢ self.old }
    {
        unite(
            &mut self.elements,
            usize::from(self.limit),
            other.elements.as_slice(),
        )
    }

    /// Whether one element meets each condition, or there is none.
    pub(crate) fn hold(&self, conds: &[Cond]) -> bool
        ensures { result ≡ consistent self.now conds.now }
    {
        may_meet(self.elements.as_slice(), conds)
    }

    /// Writes its bytes to the front of `out`, and answers how many they are.
    pub(crate) fn write(&self, out: &mut [u8]) -> usize
        requires { 2 + 9 * self.now.limit ≤ length out.old }
        ensures size { result ≡ length (bytes_of self.now) }
        ensures within { result ≤ 2 + 9 * self.now.limit }
        ensures written { out.new ≡ bytes_of self.now ++ drop result out.old }
    {
        write(self.elements.as_slice(), usize::from(self.limit), out)
    }

    /// Makes it the summary that the bytes encode within its limit. `Err` exactly where they encode none: it is unchanged
    /// then.
    pub(crate) fn read(&mut self, bytes: &[u8]) -> Result<(), Malformed>
        ensures lawful { IsSummary self.old.limit self.new }
        ensures found { OnOk result (bytes.now ≡ bytes_of self.new) }
        ensures again { (s : Kept) → IsSummary self.old.limit s → bytes.now ≡ bytes_of s → IsOk result × (self.new ≡ s) }
        ensures unchanged { OnErr result (self.new ≡ self.old) }
        ensures read { MatchResult result (λ ok. summary_in self.old.limit bytes.now ≡ Ok self.new) (λ e. summary_in self.old.limit bytes.now ≡ Err e.at) }
        ensures within { IfErr result (λ e. e.at ≤ length bytes.now) }
    {
        read(
            bytes,
            usize::from(self.limit),
            self.spare.as_mut_slice(),
            &mut self.elements,
        )
    }
}
