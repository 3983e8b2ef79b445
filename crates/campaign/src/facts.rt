//! What an advertiser states of a campaign, within the limits.
ghost use Rattle.std.specs.Prelude.{◌≡◌, ◌%◌, ◌<◌, ◌≤◌};
ghost use Rattle.std.specs.Option.{option_copied};
ghost use Rattle.campaign.specs.Faults.{ok_unless, fact_faults};
ghost use Rattle.campaign.specs.Kept.{IsKept, size_of, with_cap};
ghost use Rattle.campaign.specs.Marks.{marks_of};

use crate::cap::Cap;
use crate::check::first_fault;
use crate::marks::{Marks, marks_of};
use crate::parts::{FactFault, FactParts, size_of};
use rtb_num::{List, Micros, Nanos, Txt};
use std::marker::Model;

/// What an advertiser states of a campaign beside its target, within the limits.
///
/// Contracts see it as its parts.
#[derive(Drop)]
pub struct Facts {
    parts: FactParts,
    // By these most lists of a request are known not to have its texts.
    marks: Marks,
}

impl Model for Facts {
    ghost use Rattle.campaign.specs.declared.parts.FactParts.{FactParts};
    ghost use Rattle.campaign.specs.Marks.{AreMarked};

    ghost Value = { FactParts };

    ghost view = { λ f. f.parts };

    ghost invariant = { λ f. AreMarked f.parts f.marks };
}

impl Facts {
    /// The facts of these parts, or the first fault in the order of the fields.
    ///
    /// The budget has to be whole micro-dollars, a multiple of 1000.
    pub fn make(parts: FactParts) -> Result<Facts, FactFault>
        requires { parts.budget % 1000 ≡ 0 }
        ensures { result ≡ ok_unless (fact_faults parts) parts }
    {
        match first_fault(&parts) {
            Some(fault) => {
                drop(parts);
                Err(fault)
            }
            None => Ok(Facts {
                marks: marks_of(&parts),
                parts,
            }),
        }
    }

    // The facts of parts that are known to be right.
    pub(crate) fn of(parts: FactParts) -> Facts
        requires { IsKept parts }
        ensures { result ≡ parts }
    {
        Facts {
            marks: marks_of(&parts),
            parts,
        }
    }

    // The parts.
    pub(crate) fn parts(&self) -> &FactParts
        ensures value { result.now ≡ self.now }
        ensures kept { IsKept result.now }
    {
        &self.parts
    }

    /// The marks of its advertiser, of its first three categories and of its first deal.
    #[inline(always)]
    pub fn marks(&self) -> Marks
        ensures { result ≡ marks_of self.now }
    {
        self.marks
    }

    /// Who pays: 1 to 255 bytes.
    pub fn seat(&self) -> &Txt
        ensures { result.now ≡ self.now.seat }
    {
        &self.parts.seat
    }

    /// The advertiser's domain, 1 to 255 bytes.
    pub fn adomain(&self) -> &Txt
        ensures { result.now ≡ self.now.adomain }
    {
        &self.parts.adomain
    }

    /// Content categories of the creative, at most 64 of 1 to 255 bytes.
    pub fn cat(&self) -> &List<Txt>
        ensures { result.now ≡ self.now.cat }
    {
        &self.parts.cat
    }

    /// Width and height of the creative in pixels, 1 to 32767 each, or none.
    pub fn size(&self) -> Option<(i32, i32)>
        ensures { result ≡ size_of self.now }
    {
        size_of(&self.parts)
    }

    /// Attributes of the creative, at most 64, none negative.
    pub fn attr(&self) -> &List<i32>
        ensures { result.now ≡ self.now.attr }
    {
        &self.parts.attr
    }

    /// Whether the markup is safe on pages that ask for secure content.
    pub fn secure(&self) -> bool
        ensures { result ≡ self.now.secure }
    {
        self.parts.secure
    }

    /// Micro-dollars per thousand impressions, at least 1.
    pub fn bid(&self) -> Micros
        ensures value { result ≡ self.now.bid }
        ensures some { 1 ≤ result }
    {
        self.parts.bid
    }

    /// Identifiers of the deals that the advertiser has, at most 64 of 1 to 255 bytes.
    pub fn deals(&self) -> &List<Txt>
        ensures { result.now ≡ self.now.deals }
    {
        &self.parts.deals
    }

    /// The budget, whole micro-dollars.
    pub fn budget(&self) -> Nanos
        ensures value { result ≡ self.now.budget }
        ensures whole_micros { result % 1000 ≡ 0 }
    {
        self.parts.budget
    }

    /// The markup of the creative, at most 65,536 bytes.
    pub fn adm(&self) -> &Txt
        ensures { result.now ≡ self.now.adm }
    {
        &self.parts.adm
    }

    /// Identifier of the creative, 1 to 255 bytes.
    pub fn crid(&self) -> &Txt
        ensures { result.now ≡ self.now.crid }
    {
        &self.parts.crid
    }

    /// Identifier of the preloaded ad, 1 to 255 bytes, or none.
    pub fn adid(&self) -> Option<&Txt>
        ensures { option_copied result ≡ self.now.adid }
    {
        self.parts.adid.as_ref()
    }

    /// How often one user is shown the campaign, or none where that is not bounded.
    pub fn cap(&self) -> Option<Cap>
        ensures { result ≡ self.now.cap }
    {
        self.parts.cap
    }

    /// The same facts with that cap.
    pub fn with_cap(self, cap: Option<Cap>) -> Facts
        ensures { result ≡ with_cap cap self }
    {
        let marks = self.marks;
        let mut parts = self.parts;
        parts.cap = cap;
        Facts { parts, marks }
    }
}
