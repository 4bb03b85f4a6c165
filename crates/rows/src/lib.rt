//! Rows of hearings and cuts on a brand new exchange over any two sides, and what is promised of them.
#![tactic(auto)]

ghost use Rattle.std.specs.Prelude.{ℕ};
ghost use Rattle.side.specs.Meaning.{Meaning};
ghost use Rattle.rows.specs.Sides.{sides_of};
ghost use Rattle.rows.specs.Independence.{Independence};
ghost use Rattle.rows.specs.Naming.{Naming};
ghost use Rattle.rows.specs.Accounting.{Accounting};
ghost use Rattle.rows.specs.Carriage.{Carriage};
ghost use Rattle.rows.specs.Cutting.{Cutting};
ghost use Rattle.rows.specs.Refusals.{Refusals};

pub mod kinds;

/// Calls stand apart: what happens on some legs is settled by the members that name one of them.
pub fn calls_stand_apart<A, B>()
    ensures { (first : Meaning A) (m : ℕ) (second : Meaning B) (n : ℕ) → Independence (sides_of first m second n) }
{}

/// What a hearing names goes by its refusal: refused 1 to 6 it names none.
pub fn names_go_by_refusals<A, B>()
    ensures { (first : Meaning A) (m : ℕ) (second : Meaning B) (n : ℕ) → Naming (sides_of first m second n) }
{}

/// Every call is accounted for, and every clearing.
pub fn calls_are_accounted_for<A, B>()
    ensures { (first : Meaning A) (m : ℕ) (second : Meaning B) (n : ℕ) → Accounting (sides_of first m second n) }
{}

/// What is to be told onward is told, with its parts, and nothing else is.
pub fn parts_are_carried<A, B>()
    ensures { (first : Meaning A) (m : ℕ) (second : Meaning B) (n : ℕ) → Carriage (sides_of first m second n) }
{}

/// A cut tells both legs of a call that it ends, and why.
pub fn cuts_tell_both_legs<A, B>()
    ensures { (first : Meaning A) (m : ℕ) (second : Meaning B) (n : ℕ) → Cutting (sides_of first m second n) }
{}

/// A member is refused only where something stands against it; every other is accepted.
pub fn refusals_have_reasons<A, B>()
    ensures { (first : Meaning A) (m : ℕ) (second : Meaning B) (n : ℕ) → Refusals (sides_of first m second n) }
{}
