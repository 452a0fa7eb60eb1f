// The summands of a written equation's lines.
#![tactic(auto, using(dsv_algebra::proofs::Casts::casts))]

ghost use Rattle.std.specs.Prelude.{◌≡◌, ◌+◌, ◌*◌, ◌^◌, ◌<◌, ◌≤◌, ◌++◌, ◌∷◌, [], length, drop};
ghost use Rattle.std.specs.Prelude.{slice_index_or, pos};
ghost use Rattle.std.specs.Int.RustNames.{unsigned_abs};
ghost use Rattle.std.specs.List.{All};
ghost use Rattle.dsv_word.specs.Words.{IsWord};
ghost use Rattle.dsv_meaning.specs.declared.summands.Summand.TheVariants.{Times, Alone};
ghost use Rattle.dsv_meaning.specs.Lines.{summands};
ghost use Rattle.dsv_meaning.specs.Summands.{IsSmall, IsSmallNumber};
ghost use Rattle.dsv_meaning.specs.Equations.{ago, order, feedback, first_alone, forward_summands};
ghost use Rattle.dsv_meaning.specs.Equations.{feedback_summands, transposed_output};
ghost use Rattle.dsv_meaning.specs.Equations.{transposed_line, delta_line};
ghost use Rattle.dsv_meaning.specs.declared.summands.TheConstants.{MOST_SUMMANDS};

use arrayvec::ArrayVec;
use dsv_quantiser::Quantised;

/// The most summands that a line has: 9 products of inputs and 8 of outputs.
pub const MOST_SUMMANDS: usize = 17;

/// A summand of a line. `W` is the type of the words: words themselves in a written equation, the
/// numbers of the nodes that have them in a netlist.
#[derive(Clone, Copy, Debug, PartialEq, Eq)]
pub enum Summand<W> {
    /// A coefficient times a word, added or taken away.
    Times { away: bool, coeff: i64, word: W },
    /// A word alone, added.
    Alone { word: W },
}

impl<W: Default> Default for Summand<W> {
    fn default() -> Self {
        Summand::Alone { word: W::default() }
    }
}

/// The summands of a line, in their order.
pub(crate) type Summands = ArrayVec<Summand<i64>, MOST_SUMMANDS>;

/// The input and the output of a sample.
#[derive(Clone, Copy)]
pub(crate) struct Signals<'a> {
    pub(crate) x: &'a i64,
    pub(crate) y: &'a i64,
}

/// The words after the first `count`.
pub(crate) fn rest_after(words: &[i64], count: usize) -> &[i64]
    requires { count ≤ length words.now }
    ensures { result.now ≡ drop count words.now }
{
    words.split_at(count).1
}

/// The coefficients a_1, a_2, .. of the controller.
pub(crate) fn feedback(quantised: &Quantised) -> &[i64]
    ensures same { result.now ≡ feedback quantised.now }
    ensures many { length result.now ≡ order quantised.now }
    ensures words { All (IsWord quantised.now.format) result.now }
    ensures small { All IsSmallNumber result.now }
{
    rest_after(quantised.a(), 1)
}

/// The coefficients b_1, b_2, .. of the controller.
pub(crate) fn feed_forward(quantised: &Quantised) -> &[i64]
    ensures same { result.now ≡ drop 1 quantised.now.b }
    ensures many { length result.now ≡ order quantised.now }
    ensures words { All (IsWord quantised.now.format) result.now }
    ensures small { All IsSmallNumber result.now }
{
    rest_after(quantised.b(), 1)
}

/// Delta's word.
fn delta_word(quantised: &Quantised) -> i64
    ensures same { result ≡ quantised.now.delta }
    ensures word { IsWord quantised.now.format result }
    ensures small { IsSmallNumber result }
{
    quantised.delta()
}

/// The summands after the first.
pub(crate) fn rest_of(summands: &[Summand<i64>]) -> &[Summand<i64>]
    requires { 1 ≤ length summands.now }
    ensures { result.now ≡ drop 1 summands.now }
{
    summands.split_at(1).1
}

/// Adds a product, whose coefficient is a word.
fn push_product(summands: &mut Summands, away: bool, coeff: i64, word: i64)
    requires small { unsigned_abs coeff ≤ 2 ^ 48 }
    requires before { All IsSmall summands.old.items }
    requires room { length summands.old.items < MOST_SUMMANDS }
    ensures value { summands.new.items
        ≡ summands.old.items ++ Times away coeff word ∷ [] }
    ensures small { All IsSmall summands.new.items }
    ensures count { length summands.new.items ≡ length summands.old.items + 1 }
{
    summands.push(Summand::Times { away, coeff, word });
}

/// Adds a word alone.
fn push_word(summands: &mut Summands, word: i64)
    requires before { All IsSmall summands.old.items }
    requires room { length summands.old.items < MOST_SUMMANDS }
    ensures value { summands.new.items
        ≡ summands.old.items ++ Alone word ∷ [] }
    ensures small { All IsSmall summands.new.items }
    ensures count { length summands.new.items ≡ length summands.old.items + 1 }
{
    summands.push(Summand::Alone { word });
}

/// Adds the products of coefficients and words, one after another.
fn push_products(list: &mut Summands, away: bool, coeffs: &[i64], words: &[i64])
    requires small { All IsSmallNumber coeffs.now }
    requires words { length coeffs.now ≤ length words.now }
    requires before { All IsSmall list.old.items }
    requires room { length list.old.items + length coeffs.now ≤ MOST_SUMMANDS }
    ensures value { list.new.items
        ≡ list.old.items ++ summands away coeffs.now (ago words.now) 0 }
    ensures small { All IsSmall list.new.items }
    ensures count { length list.new.items ≡ length list.old.items + length coeffs.now }
{
    for (i, coeff) in coeffs.iter().enumerate() {
        push_product(list, away, *coeff, words[i]);
    }
}

/// Adds the first of these words, if there is one.
fn push_first(summands: &mut Summands, words: &[i64])
    requires before { All IsSmall summands.old.items }
    requires room { length summands.old.items < MOST_SUMMANDS }
    ensures value { summands.new.items
        ≡ summands.old.items ++ first_alone words.now }
    ensures small { All IsSmall summands.new.items }
    ensures count { length summands.new.items ≤ length summands.old.items + 1 }
{
    if let Some(word) = words.first() {
        push_word(summands, *word);
    }
}

/// The summands b_0 w_0 + b_1 w_1 + .., where w_0 is the newest word.
pub(crate) fn forward_summands(quantised: &Quantised, newest: &i64, older: &[i64]) -> Summands
    requires older { length older.now ≡ order quantised.now }
    ensures value { result.items
        ≡ forward_summands quantised.now (ago (newest.now ∷ older.now)) }
    ensures small { All IsSmall result.items }
    ensures count { length result.items ≡ order quantised.now + 1 }
{
    let mut summands = Summands::new();
    push_product(&mut summands, false, quantised.b()[0], *newest);
    push_products(&mut summands, false, feed_forward(quantised), older);
    summands
}

/// Adds - a_1 w_1 - a_2 w_2 - ..
pub(crate) fn push_feedback(quantised: &Quantised, words: &[i64], summands: &mut Summands)
    requires words { length words.now ≡ order quantised.now }
    requires before { All IsSmall summands.old.items }
    requires room { length summands.old.items + order quantised.now ≤ MOST_SUMMANDS }
    ensures value { summands.new.items
        ≡ summands.old.items ++ feedback_summands quantised.now (ago words.now) 0 }
    ensures small { All IsSmall summands.new.items }
    ensures count { length summands.new.items ≡ length summands.old.items + order quantised.now }
{
    push_products(summands, true, feedback(quantised), words);
}

/// The summands x - a_1 w_1 - a_2 w_2 - ..
pub(crate) fn state_summands(quantised: &Quantised, x: &i64, words: &[i64]) -> Summands
    requires words { length words.now ≡ order quantised.now }
    ensures value { result.items
        ≡ Alone x.now ∷ feedback_summands quantised.now (ago words.now) 0 }
    ensures small { All IsSmall result.items }
    ensures count { length result.items ≡ order quantised.now + 1 }
{
    let _order = quantised.order(); // its range, for the proof
    let mut summands = Summands::new();
    push_word(&mut summands, *x);
    push_feedback(quantised, words, &mut summands);
    summands
}

/// The summands b_0 x + b_1 u_1 + .. - a_1 v_1 - ..
pub(crate) fn direct_summands(quantised: &Quantised, x: &i64, u: &[i64], v: &[i64]) -> Summands
    requires u { length u.now ≡ order quantised.now }
    requires v { length v.now ≡ order quantised.now }
    ensures value { result.items
        ≡ forward_summands quantised.now (ago (x.now ∷ u.now))
        ++ feedback_summands quantised.now (ago v.now) 0 }
    ensures small { All IsSmall result.items }
    ensures count { length result.items ≡ 2 * order quantised.now + 1 }
{
    let _order = quantised.order(); // its range, for the proof
    let mut summands = forward_summands(quantised, x, u);
    push_feedback(quantised, v, &mut summands);
    summands
}

/// The summands b_0 x + s_1, where s_1 is the first of the words, if there is one.
pub(crate) fn transposed_output(quantised: &Quantised, x: &i64, words: &[i64]) -> Summands
    ensures value { result.items ≡ transposed_output quantised.now x.now words.now }
    ensures small { All IsSmall result.items }
    ensures some { 1 ≤ length result.items }
    ensures count { length result.items ≤ 2 }
{
    let mut summands = Summands::new();
    push_product(&mut summands, false, quantised.b()[0], *x);
    push_first(&mut summands, words);
    summands
}

/// The summands b_i x - a_i y + w, where i is one more than `place`, and w is the first of the
/// words, if there is one.
pub(crate) fn transposed_line(
    quantised: &Quantised,
    place: usize,
    signals: Signals,
    words: &[i64],
) -> Summands
    requires { place < order quantised.now }
    ensures value { result.items
        ≡ transposed_line (slice_index_or (drop 1 quantised.now.b) place (pos 0))
        (slice_index_or (feedback quantised.now) place (pos 0))
        signals.entry.x.now signals.entry.y.now words.now }
    ensures small { All IsSmall result.items }
    ensures some { 1 ≤ length result.items }
    ensures count { length result.items ≤ 3 }
{
    let mut summands = Summands::new();
    push_product(
        &mut summands,
        false,
        feed_forward(quantised)[place],
        *signals.x,
    );
    push_product(&mut summands, true, feedback(quantised)[place], *signals.y);
    push_first(&mut summands, words);
    summands
}

/// The summands w + delta v.
pub(crate) fn delta_line(quantised: &Quantised, word: &i64, before: &i64) -> Summands
    ensures value { result.items ≡ delta_line quantised.now word.now before.now }
    ensures small { All IsSmall result.items }
    ensures count { length result.items ≡ 2 }
{
    let mut summands = Summands::new();
    push_word(&mut summands, *word);
    push_product(&mut summands, false, delta_word(quantised), *before);
    summands
}
