// The services of Vaultgarlic for C (include/vaultgarlic.h): the library's archive is made of this crate. Each function is the one of crate
// vaultgarlic that has its name, and promises the same.
#![tactic(auto)]

ghost use Rattle.std.specs.Prelude.{◌≡◌, length};
ghost use Rattle.services.specs.Services.{checked_as, listed_as, listed_into, shortened_as, shortened_into, membership_as};

use services::{Checked, Listed, Membership, Shortened};

// Checks a package. Any bytes are taken.
#[unsafe(no_mangle)]
pub extern "C" fn vg_check(package: &[u8]) -> Checked
    ensures { result ≡ checked_as «package».now }
{
    vaultgarlic::vg_check(package)
}

// Lists a package's overlaps and inclusions into the output slice. Any bytes are taken.
#[unsafe(no_mangle)]
pub extern "C" fn vg_list_overlaps(package: &[u8], out: &mut [u8]) -> Listed
    ensures value { result ≡ listed_as «package».now (length out.old) }
    ensures out_after { out.new ≡ listed_into «package».now out.old }
{
    vaultgarlic::vg_list_overlaps(package, out)
}

// Brings a formula to its short form within a budget of steps. Any bytes are taken.
#[unsafe(no_mangle)]
pub extern "C" fn vg_short_form(
    package: &[u8],
    formula: &[u8],
    budget: u32,
    out: &mut [u8],
) -> Shortened
    ensures value { result ≡ shortened_as «package».now formula.now budget (length out.old) }
    ensures out_after { out.new ≡ shortened_into «package».now formula.now budget out.old }
{
    vaultgarlic::vg_short_form(package, formula, budget, out)
}

// Says whether a formula's short form, within a budget of steps, is zero. Any bytes are taken.
#[unsafe(no_mangle)]
pub extern "C" fn vg_member(package: &[u8], formula: &[u8], budget: u32) -> Membership
    ensures { result ≡ membership_as «package».now formula.now budget }
{
    vaultgarlic::vg_member(package, formula, budget)
}
