//! What follows from the definitions that contracts cite, without any call.
//!
//! Each function here does nothing: its contract is the law.
ghost use Rattle.std.specs.Prelude.{◌≡◌, ◌<◌, ◌≤◌, ℕ, List, Some, length, take};
ghost use Rattle.amqp_link_payloads.specs.Position.{position, place, IsBefore};
ghost use Rattle.amqp_link_payloads.specs.Section.{contents_of, IsDataSection};

/// The bytes that are decoded as data are exactly the data sections, in each of their forms, and the data
/// that is decoded is the data that was encoded (3.2.6).
pub fn data_sections_are_read()
    ensures read { (bytes contents : List ℕ) → contents_of bytes ≡ Some contents
        → IsDataSection bytes contents }
    ensures written { (bytes contents : List ℕ) → IsDataSection bytes contents
        → contents_of bytes ≡ Some contents }
{}

/// The positions of the fronts of one payload increase with the length of the front, by section, then by
/// offset, and the place of the position of a front is its length (3.4.1).
pub fn positions_name_fronts()
    ensures rises { (P : List ℕ) (m n : ℕ) → m < n → n ≤ length P
        → IsBefore (position (take m P)) (position (take n P)) }
    ensures found { (P : List ℕ) (n : ℕ) → n ≤ length P
        → let at = position (take n P) in place P at.0 at.1 ≡ Some n }
{}
