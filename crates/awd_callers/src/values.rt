// The plain values that the library hands out, compared and copied: `==` holds exactly for one and the same, and a clone is its original.
ghost use Rattle.std.specs.Prelude.{◌≡◌, true};

use awd_block_fault::HeaderFault;
use awd_fault::Fault;
use awd_header::Header;
use awd_roster::Record;

// Returns nothing; that it is proved is what counts. (Of faults and of faults in blocks, `==` is proved where they are defined.)
pub fn plain_values()
    ensures equal_headers { (x y : Header) → ⟦<Header as PartialEq>⟧.eq x y ≡ true → x ≡ y }
    ensures equal_records { (x y : Record) → ⟦<Record as PartialEq>⟧.eq x y ≡ true → x ≡ y }
    ensures equal_faults { (x y : HeaderFault) → ⟦<HeaderFault as PartialEq>⟧.eq x y ≡ true → x ≡ y }
    ensures cloned_headers { (x y : Header) → ⟦<Header as Clone>⟧.is_clone x y → y ≡ x }
    ensures cloned_records { (x y : Record) → ⟦<Record as Clone>⟧.is_clone x y → y ≡ x }
    ensures cloned_faults { (x y : Fault) → ⟦<Fault as Clone>⟧.is_clone x y → y ≡ x }
{}
