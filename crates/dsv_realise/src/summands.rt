// The summands of a written equation's lines, over the nodes that have their words.
#![tactic(auto, using(dsv_algebra::proofs::Casts::casts))]

ghost use Rattle.std.specs.Prelude.{◌≡◌, ◌+◌, ◌*◌, ◌<◌, ◌≤◌, ◌++◌, ◌∷◌, length};
ghost use Rattle.std.specs.Prelude.{slice_index_or, pos, ◌-◌, true};
ghost use Rattle.dsv_meaning.specs.declared.summands.Summand.TheVariants.{Times, Alone};
ghost use Rattle.dsv_meaning.specs.declared.summands.TheConstants.{MOST_SUMMANDS};
ghost use Rattle.dsv_meaning.specs.Lines.{summands};
ghost use Rattle.dsv_meaning.specs.Equations.{order, forward_summands};
ghost use Rattle.dsv_meaning.specs.Equations.{feedback_summands, transposed_output};
ghost use Rattle.dsv_meaning.specs.Equations.{transposed_line, delta_line};
ghost use Rattle.dsv_realise.specs.Netlists.{newest_at, count};
ghost use Rattle.dsv_realise.specs.Parts.{most_source_nodes, begins_added};

use arrayvec::ArrayVec;
use dsv_meaning::{MOST_SUMMANDS, Summand};
use dsv_quantiser::Quantised;

/// The summands of a line, in their order.
pub type Summands = ArrayVec<Summand<u32>, MOST_SUMMANDS>;

/// Adds the products of coefficients and the words of the nodes from one on, which are added to a
/// line, or taken away from it.
pub fn push_products(list: &mut Summands, away: bool, coeffs: &[i64], from: u32)
    requires room { length list.old.items + length coeffs.now ≤ MOST_SUMMANDS }
    requires low { from ≤ most_source_nodes }
    ensures value { list.new.items
        ≡ list.old.items ++ summands away coeffs.now (λ i. i) from }
    ensures count { length list.new.items ≡ length list.old.items + length coeffs.now }
{
    let mut word = from;
    for coeff in coeffs {
        list.push(Summand::Times {
            away,
            coeff: *coeff,
            word,
        });
        word += 1;
    }
}

/// The summands b_0 w_0 + b_1 w_1 + .., where w_0 is the word of the node `newest`, and the others
/// are those of the nodes from 1 on.
pub(crate) fn forward_summands(quantised: &Quantised, newest: u32) -> Summands
    ensures value { result.items ≡ forward_summands quantised.now (newest_at newest) }
    ensures added { begins_added result.items ≡ true }
    ensures count { length result.items ≡ order quantised.now + 1 }
{
    let b = quantised.b();
    let mut summands = Summands::new();
    summands.push(Summand::Times {
        away: false,
        coeff: b[0],
        word: newest,
    });
    push_products(&mut summands, false, &b[1..], 1);
    summands
}

/// Adds - a_1 w_1 - a_2 w_2 - .., where the words are those of the nodes from one on.
fn push_feedback(quantised: &Quantised, from: u32, summands: &mut Summands)
    requires room { length summands.old.items + order quantised.now ≤ MOST_SUMMANDS }
    requires low { from ≤ most_source_nodes }
    ensures value { summands.new.items
        ≡ summands.old.items ++ feedback_summands quantised.now (λ i. i) from }
    ensures count { length summands.new.items ≡ length summands.old.items + order quantised.now }
{
    push_products(summands, true, &quantised.a()[1..], from);
}

/// The summands x - a_1 w_1 - a_2 w_2 - .. of both second forms.
pub(crate) fn state_summands(quantised: &Quantised) -> Summands
    ensures value { result.items ≡ Alone 0 ∷ feedback_summands quantised.now (λ i. i) 1 }
    ensures added { begins_added result.items ≡ true }
    ensures count { length result.items ≡ order quantised.now + 1 }
{
    let _order = quantised.order(); // its range, for the proof
    let mut summands = Summands::new();
    summands.push(Summand::Alone { word: 0 });
    push_feedback(quantised, 1, &mut summands);
    summands
}

/// The summands b_0 x + b_1 x_1 + .. - a_1 y_1 - .. of both first forms.
pub(crate) fn direct_summands(quantised: &Quantised) -> Summands
    ensures value { result.items ≡ forward_summands quantised.now (λ i. i)
        ++ feedback_summands quantised.now (λ i. i) (order quantised.now + 1) }
    ensures added { begins_added result.items ≡ true }
    ensures count { length result.items ≡ 2 * order quantised.now + 1 }
{
    let order = quantised.order() as u32;
    let mut summands = forward_summands(quantised, 0);
    push_feedback(quantised, order + 1, &mut summands);
    summands
}

/// The summands b_0 x + s_1 of both transposed forms, where s_1 is there if there is a register.
pub(crate) fn transposed_output(quantised: &Quantised) -> Summands
    ensures value { result.items
        ≡ transposed_output quantised.now 0 (count 1 (order quantised.now)) }
    ensures added { begins_added result.items ≡ true }
    ensures count { length result.items ≤ 2 }
{
    let mut summands = Summands::new();
    summands.push(Summand::Times {
        away: false,
        coeff: quantised.b()[0],
        word: 0,
    });
    if quantised.order() > 0 {
        summands.push(Summand::Alone { word: 1 });
    }
    summands
}

/// The summands b_i x - a_i y + s_(i+1) of a new word of a transposed form, where s_(i+1) is there
/// if i isn't the order.
pub(crate) fn transposed_line(quantised: &Quantised, i: usize, output: u32) -> Summands
    requires least { 1 ≤ i }
    requires most { i ≤ order quantised.now }
    ensures value { result.items ≡ transposed_line (slice_index_or quantised.now.b i (pos 0))
        (slice_index_or quantised.now.a i (pos 0)) 0 output
        (count (i + 1) (order quantised.now - i)) }
    ensures added { begins_added result.items ≡ true }
    ensures count { length result.items ≤ 3 }
{
    let mut summands = Summands::new();
    summands.push(Summand::Times {
        away: false,
        coeff: quantised.b()[i],
        word: 0,
    });
    summands.push(Summand::Times {
        away: true,
        coeff: quantised.a()[i],
        word: output,
    });
    if i < quantised.order() {
        summands.push(Summand::Alone { word: i as u32 + 1 });
    }
    summands
}

/// The summands w + delta v, where `word` and `before` are the nodes of w and v.
pub(crate) fn delta_line(quantised: &Quantised, word: u32, before: u32) -> Summands
    ensures value { result.items ≡ delta_line quantised.now word before }
    ensures added { begins_added result.items ≡ true }
    ensures count { length result.items ≡ 2 }
{
    let mut summands = Summands::new();
    summands.push(Summand::Alone { word });
    summands.push(Summand::Times {
        away: false,
        coeff: quantised.delta(),
        word: before,
    });
    summands
}
