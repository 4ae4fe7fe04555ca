// The services of Vaultgarlic, which crate vaultgarlic_c exports for C (include/vaultgarlic.h). No service keeps state, and none has a
// precondition: any bytes end in an answer or in a refusal by its number. Each is one call; what it answers is defined in crate services.
#![tactic(auto)]

ghost use Rattle.std.specs.Prelude.{◌≡◌, length};
ghost use Rattle.services.specs.Services.{checked_as, listed_as, listed_into, shortened_as, shortened_into, membership_as};

use services::{Checked, Listed, Membership, Shortened};

// Checks a package. Any bytes are taken.
pub fn vg_check(package: &[u8]) -> Checked
    ensures { result ≡ checked_as «package».now }
{
    answering::check::check_package(package)
}

// Lists a package's overlaps and inclusions into the output slice. Any bytes are taken.
pub fn vg_list_overlaps(package: &[u8], out: &mut [u8]) -> Listed
    ensures value { result ≡ listed_as «package».now (length out.old) }
    ensures out_after { out.new ≡ listed_into «package».now out.old }
{
    listing::list::list_package(package, out)
}

// Brings a formula to its short form within a budget of steps. Any bytes are taken.
pub fn vg_short_form(package: &[u8], formula: &[u8], budget: u32, out: &mut [u8]) -> Shortened
    ensures value { result ≡ shortened_as «package».now formula.now budget (length out.old) }
    ensures out_after { out.new ≡ shortened_into «package».now formula.now budget out.old }
{
    answering::short::shorten(package, formula, budget, out)
}

// Says whether a formula's short form, within a budget of steps, is zero. Any bytes are taken.
pub fn vg_member(package: &[u8], formula: &[u8], budget: u32) -> Membership
    ensures { result ≡ membership_as «package».now formula.now budget }
{
    answering::member::is_member(package, formula, budget)
}
