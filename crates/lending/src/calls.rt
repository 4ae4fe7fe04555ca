// The services with an output slice, lent the first bytes of a longer one. The bytes behind those are kept.

ghost use Rattle.std.specs.Prelude.{◌≡◌, ◌++◌, ◌≤◌, length, take, drop};
ghost use Rattle.services.specs.Services.{listed_as, listed_into, shortened_as, shortened_into};

use services::{Listed, Shortened};
use vaultgarlic::{vg_list_overlaps, vg_short_form};

// Listing into the first room bytes of out.
pub fn list_into(package: &[u8], out: &mut [u8], room: usize) -> Listed
    requires { room ≤ length out.old }
    ensures value { result ≡ listed_as «package».now room }
    ensures out_after { out.new ≡ listed_into «package».now (take room out.old) ++ drop room out.old }
{
    vg_list_overlaps(package, &mut out[..room])
}

// The short form of a formula, written into the first room bytes of out.
pub fn shorten_into(
    package: &[u8],
    formula: &[u8],
    budget: u32,
    out: &mut [u8],
    room: usize,
) -> Shortened
    requires { room ≤ length out.old }
    ensures value { result ≡ shortened_as «package».now formula.now budget room }
    ensures out_after { out.new ≡ shortened_into «package».now formula.now budget (take room out.old) ++ drop room out.old }
{
    vg_short_form(package, formula, budget, &mut out[..room])
}
