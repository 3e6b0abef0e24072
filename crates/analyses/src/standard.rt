// The standard pile: constants, copies, arithmetic and branches, followed deep.
ghost use Rattle.std.specs.Prelude.{◌≡◌};
ghost use Rattle.analysis.specs.Analyses.{MovesShow};
ghost use Rattle.analysis.specs.Deeps.{deep_moves};
ghost use Rattle.analysis.specs.Facts.{FactsShow};
ghost use Rattle.analysis.specs.Pairs.{pair_facts, pair_moves};
ghost use Rattle.analyses.specs.Standard.{standard_facts, standard_moves, Example};

use crate::arithmetic::Arithmetic;
use crate::branches::Branches;
use crate::constants::Constants;
use crate::copies::Copies;
use analysis::analysis::Analysis;
use analysis::deep::Deep;
use analysis::pair::Pair;

pub type Standard = Deep<Pair<Constants, Pair<Copies, Pair<Arithmetic, Branches>>>>;

/// Four analyses, each before the next, followed deep.
fn piled<A: Analysis, B: Analysis, C: Analysis, D: Analysis>(
    a: A,
    b: B,
    c: C,
    d: D,
) -> Deep<Pair<A, Pair<B, Pair<C, D>>>>
    ensures facts { FactsShow (pair_facts (A.Facts.facts a) (pair_facts (B.Facts.facts b) (pair_facts (C.Facts.facts c) (D.Facts.facts d)))) }
    ensures moves { MovesShow (pair_facts (A.Facts.facts a) (pair_facts (B.Facts.facts b) (pair_facts (C.Facts.facts c) (D.Facts.facts d)))) (deep_moves (pair_moves (A.Facts.facts a) (pair_facts (B.Facts.facts b) (pair_facts (C.Facts.facts c) (D.Facts.facts d))) (A.Analysis.moves a) (pair_moves (B.Facts.facts b) (pair_facts (C.Facts.facts c) (D.Facts.facts d)) (B.Analysis.moves b) (pair_moves (C.Facts.facts c) (D.Facts.facts d) (C.Analysis.moves c) (D.Analysis.moves d)))) (pair_facts (A.Facts.facts a) (pair_facts (B.Facts.facts b) (pair_facts (C.Facts.facts c) (D.Facts.facts d))))) }
{
    Deep::new(Pair::new(a, Pair::new(b, Pair::new(c, d))))
}

/// The standard pile, whose height is 20.
pub fn standard() -> Standard
    ensures height { standard_facts.height ≡ 20 }
    ensures facts { FactsShow standard_facts }
    ensures moves { MovesShow standard_facts standard_moves }
    ensures example { Example }
{
    piled(Constants, Copies, Arithmetic, Branches)
}
