//! The rules by which the bits of paths go on along a walk, by sparse rows.

ghost use Rattle.std.specs.Prelude.{◌≡◌, ◌<◌, length, drop};
ghost use Rattle.std.specs.List.{All};
ghost use Rattle.word_rules.specs.WordRules as spec;

/// A walk begins: all bits become 0, then for each entry of the row its word becomes the entry's
/// `begin`, and `done` is added to that word of those seen. A row is the number of its entries and
/// then three numbers for each: the number of its word, `begin`, `done`.
pub fn begin(bits: &mut [u64], seen: &mut [u64], row: &[u64])
    requires long { length seen.old ≡ length bits.old }
    requires within { All (λ e. e.word < length bits.old) (spec.begin_row row.now) }
    ensures { spec.begin_by (spec.begin_row row.now) (spec.words_of bits.old seen.old)
        ≡ spec.words_of bits.new seen.new }
{
    bits.fill(0);
    let mut at = 1;
    while at + 3 <= row.len() {
        begin_word(bits, seen, row[at], row[at + 1], row[at + 2]);
        at += 3;
    }
}

fn begin_word(bits: &mut [u64], seen: &mut [u64], word: u64, begin: u64, done: u64)
    requires long { length seen.old ≡ length bits.old }
    requires within { word < length bits.old }
    ensures words { spec.words_of bits.new seen.new ≡ spec.begun (spec.words_of bits.old seen.old)
        (record { word = word; begin = begin; done = done }) }
    ensures bits { length bits.new ≡ length bits.old }
    ensures seen { length seen.new ≡ length seen.old }
{
    let index = word as usize;
    bits[index] = begin;
    seen[index] |= done;
}

/// A walk goes on along an arc: for each entry of the arc's row its word is cut to the entry's
/// `keep`, what is left of it in `finish` is added to that word of those seen, and then `start` is
/// added to it. Other words stay. A row is the number of its entries and then four numbers for
/// each: the number of its word, `keep`, `finish`, `start`.
pub fn pass(bits: &mut [u64], seen: &mut [u64], row: &[u64])
    requires long { length seen.old ≡ length bits.old }
    requires within { All (λ e. e.word < length bits.old) (spec.pass_row row.now) }
    ensures { spec.pass_by (spec.pass_row row.now) (spec.words_of bits.old seen.old)
        ≡ spec.words_of bits.new seen.new }
{
    let mut at = 1;
    while at + 4 <= row.len() {
        pass_word(bits, seen, row[at], row[at + 1], row[at + 2], row[at + 3]);
        at += 4;
    }
}

fn pass_word(bits: &mut [u64], seen: &mut [u64], word: u64, keep: u64, finish: u64, start: u64)
    requires long { length seen.old ≡ length bits.old }
    requires within { word < length bits.old }
    ensures words { spec.words_of bits.new seen.new ≡ spec.passed (spec.words_of bits.old seen.old)
        (record { word = word; keep = keep; finish = finish; start = start }) }
    ensures bits { length bits.new ≡ length bits.old }
    ensures seen { length seen.new ≡ length seen.old }
{
    let index = word as usize;
    let kept = bits[index] & keep;
    seen[index] |= kept & finish;
    bits[index] = kept | start;
}
