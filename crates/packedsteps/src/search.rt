// The first term whose word has a leading word inside.

ghost use Rattle.std.specs.Prelude.{◌≡◌, List, ◌%◌, ◌<◌, get_or};
ghost use Rattle.words.specs.Word.{Word};
ghost use Rattle.packedwords.specs.Packed.{Packs};
ghost use Rattle.leads.specs.CodeIndex.{CodeIndexed};
ghost use Rattle.leads.specs.SpotOfWords.{seen, spot_of_words};
ghost use Rattle.packedterms.specs.Formula.{blocks_at};
ghost use Rattle.packedsteps.specs.Search.{codes_at, Placed, FirstFound};

use crate::Target;
use leads::Spot;
use leads::spotting::leftmost_lead_in;
use packedterms::WorkingFormula;

// Where a leading word stands in the word of term k.
fn spot_term(index: &[u64; 832], f: &WorkingFormula, k: usize) -> Option<Spot>
    requires term { (k < 560) × (get_or f.now.places k 0 < 560) }
    requires packs { Packs (get_or f.now.sizes (get_or f.now.places k 0) 0 % 256) (blocks_at f.now.blocks (get_or f.now.places k 0)) }
    ensures { (ls : List Word) → CodeIndexed ls index.now → seen result ≡ spot_of_words ls (codes_at f.now k) }
{
    let s = usize::from(f.places[k]);
    leftmost_lead_in(index, &f.blocks, s * 6, f.sizes[s] as usize % 256)
}

// The first term, from number `from` on, whose word has a leading word inside.
pub fn find_target(index: &[u64; 832], f: &WorkingFormula, from: usize) -> Option<Target>
    requires { Placed f.now }
    ensures { (ls : List Word) → CodeIndexed ls index.now → FirstFound ls (codes_at f.now) from f.now.terms result }
{
    for k in from..f.terms {
        if let Some(Spot { place, number }) = spot_term(index, f, k) {
            return Some(Target {
                term: k,
                place,
                number,
            });
        }
    }
    None
}
