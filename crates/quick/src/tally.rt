// How often each word stands in a stretch of words, counted in one pass.
ghost use Rattle.std.specs.Prelude.{◌+◌, ◌<◌, ◌≤◌, ◌≡◌, length, get_or, set};
ghost use Rattle.trees.specs.Lists.{zeros};
ghost use Rattle.trees.specs.Tables.{Tabled, table_words};
ghost use Rattle.quick.specs.Tallies.{standing};

use passes::{TABLE, Table};

// One more at k.
pub fn raise(counts: &mut Table, k: usize)
    requires { (k < table_words) × (get_or counts.old k 0 ≤ table_words) }
    ensures { counts.new ≡ set counts.old k (get_or counts.old k 0 + 1) }
{
    counts[k] = counts[k] + 1;
}

// Counts the words from a to below b, each at its own entry; a word that has none, as the root's mark, is passed over.
pub(crate) fn tally(words: &[u16], a: usize, b: usize, counts: &mut Table)
    requires { (b ≤ length words.now) × (b ≤ table_words) × (counts.old ≡ zeros table_words) }
    ensures { Tabled (standing words.now a b) 0 table_words counts.new }
{
    for u in a..b {
        let k = usize::from(words[u]);
        if k < TABLE {
            raise(counts, k);
        }
    }
}
