// list_package: the overlaps and inclusions of a package's leading words, as the text of documents 01 and 02.

ghost use Rattle.std.specs.Prelude.{◌≡◌, ◌≤◌, length};
ghost use Rattle.overlapsearch.specs.Leading.{words_in};
ghost use Rattle.overlaps.specs.Listing.{overlap_text};
ghost use Rattle.working.specs.Family.{family_at};
ghost use Rattle.basis.specs.Lies.{BasisLies};
ghost use Rattle.services.specs.Services.{words_listed, fitted, listed_as, listed_into};
ghost use Rattle.listing.specs.ListingParts.{basis_listed, basis_output};

use basis::basis::judge_basis;
use listmeasuring::measuring::measure;
use listwriting::listing::write_list;
use overlapsearch::leading::LeadingWords;
use reading::read::read_package;
use services::Listed;

fn refusal(number: u64, place: u64) -> Listed
    ensures { result ≡ record { number = number; place = place; overlaps = 0; written = 0 } }
{
    Listed {
        number: number,
        place: place,
        overlaps: 0,
        written: 0,
    }
}

// The list of the pairs of leading words. kept is scratch: the list's first pairs are kept there between the two walks.
fn list_words(words: &LeadingWords, kept: &mut [u32], out: &mut [u8]) -> Listed
    ensures value { result ≡ words_listed (length out.old) (words_in words.now) }
    ensures out_after { out.new ≡ fitted (overlap_text (words_in words.now)) out.old }
{
    let m = measure(words, kept);
    if out.len() < m.bytes {
        return refusal(19, m.bytes as u64);
    }
    let written = write_list(words, kept, m.count, out);
    Listed {
        number: 0,
        place: 0,
        overlaps: m.count as u64,
        written: written as u64,
    }
}

// Refusal 8 for the count polynomials of a basis that was read, and the list where there is none. Once the leading words are known, nothing
// asks for the places of the terms' words, and starts is scratch.
fn list_basis(
    coefs: &[u32],
    starts: &mut [u32],
    lens: &[u8],
    bytes: &[u8],
    firsts: &[usize],
    base: usize,
    count: usize,
    out: &mut [u8],
) -> Listed
    requires basis_lies { BasisLies coefs.now starts.old lens.now bytes.now firsts.now base count }
    requires count_bound { count ≤ 64 }
    ensures value { result ≡ basis_listed (length out.old) (family_at coefs.now starts.old lens.now bytes.now firsts.now base count) }
    ensures out_after { out.new ≡ basis_output out.old (family_at coefs.now starts.old lens.now bytes.now firsts.now base count) }
{
    let mut heads = [0usize; 64];
    let mut headlens = [0usize; 64];
    match judge_basis(
        coefs,
        starts,
        lens,
        bytes,
        firsts,
        base,
        count,
        &mut heads,
        &mut headlens,
    ) {
        Err(r) => refusal(u64::from(r.number), r.place as u64),
        Ok(()) => {
            let words = LeadingWords {
                starts: &heads,
                lens: &headlens,
                bytes: bytes,
                count: count,
            };
            list_words(&words, starts, out)
        }
    }
}

// Lists a package's overlaps and inclusions into the output slice. Any bytes are taken.
pub fn list_package(package: &[u8], out: &mut [u8]) -> Listed
    ensures value { result ≡ listed_as «package».now (length out.old) }
    ensures out_after { out.new ≡ listed_into «package».now out.old }
{
    let mut kinds = [0u8; 1024];
    let mut items = [0u8; 1024];
    let mut coefs = [0u32; 1024];
    let mut starts = [0u32; 1024];
    let mut lens = [0u8; 1024];
    let mut firsts = [0usize; 98];
    let r = read_package(
        package,
        &mut kinds,
        &mut items,
        &mut coefs,
        &mut starts,
        &mut lens,
        &mut firsts,
    );
    match r {
        Err(v) => refusal(v.number as u64, v.place as u64),
        Ok(read) => list_basis(
            &coefs,
            &mut starts,
            &lens,
            package,
            &firsts,
            read.head.gens as usize + 1,
            read.head.basis as usize,
            out,
        ),
    }
}
