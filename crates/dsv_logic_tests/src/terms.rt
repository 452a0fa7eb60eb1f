// What terms stand for. The expected values were computed on lists of bits, by SMT-LIB's own
// definitions.
ghost use Rattle.std.specs.Prelude.{◌≡◌, ◌<◌, length, IfOk};
ghost use Rattle.dsv_term.specs.Terms.{width_of};
ghost use Rattle.dsv_term.specs.Word.{IsWidth};

use dsv_base::NoMemory;
use dsv_term::{Goal, MAX_WIDTH, TermId, Terms};
use std::alloc::Global;

/// A constant, the highest bit or the wider width, and the lowest bit.
#[derive(Clone, Copy)]
struct Numbers {
    coeff: i64,
    high: u32,
    low: u32,
}

/// The term of a function of one input, by SMT-LIB's name.
fn of_one(terms: &mut Terms, name: &str, a: TermId, numbers: Numbers) -> Result<TermId, NoMemory>
    requires { a.0 < length terms.old.nodes }
    ensures { IfOk result (λ id. id.0 < length terms.new.nodes) }
{
    let Numbers { coeff, high, low } = numbers;
    let width = terms.width(a);
    match name {
        "bvneg" => terms.neg(a),
        "bvnot" => terms.not(a),
        "bvmul" => terms.mul_const(a, coeff),
        "sign_extend" if width <= high && high <= MAX_WIDTH => terms.sext(a, high),
        "extract" if low <= high && high < width => terms.extract(a, high, low),
        _ => Ok(a),
    }
}

/// The term of a function of two inputs.
fn of_two(terms: &mut Terms, name: &str, a: TermId, b: TermId) -> Result<TermId, NoMemory>
    requires first { a.0 < length terms.old.nodes }
    requires second { b.0 < length terms.old.nodes }
    requires alike { width_of terms.old a ≡ width_of terms.old b }
    ensures { IfOk result (λ id. id.0 < length terms.new.nodes) }
{
    let narrow = terms.width(a) + terms.width(b) <= MAX_WIDTH;
    match name {
        "bvadd" => terms.add(a, b),
        "bvsub" => terms.sub(a, b),
        "bvslt" => terms.slt(a, b),
        "bvsle" => terms.sle(a, b),
        "bvult" => terms.ult(a, b),
        "=" => terms.eq(a, b),
        "bvand" => terms.and(a, b),
        "bvor" => terms.or(a, b),
        "concat" if narrow => terms.concat(a, b),
        _ => Ok(b),
    }
}

/// The term of a choice between new inputs.
fn make_choice(terms: &mut Terms, width: u32) -> Result<TermId, NoMemory>
    requires { IsWidth width }
    ensures { IfOk result (λ id. id.0 < length terms.new.nodes) }
{
    let c = terms.input(1)?;
    let a = terms.input(width)?;
    let b = terms.input(width)?;
    terms.ite(c, a, b)
}

/// The term of a function of two new inputs.
fn make_of_two(terms: &mut Terms, name: &str, width: u32) -> Result<TermId, NoMemory>
    requires { IsWidth width }
    ensures { IfOk result (λ id. id.0 < length terms.new.nodes) }
{
    let a = terms.input(width)?;
    let b = terms.input(width)?;
    of_two(terms, name, a, b)
}

/// The term of a function of new inputs of this width.
fn make(terms: &mut Terms, name: &str, width: u32, numbers: Numbers) -> Result<TermId, NoMemory>
    requires { IsWidth width }
    ensures { IfOk result (λ id. id.0 < length terms.new.nodes) }
{
    match name {
        "ite" => make_choice(terms, width),
        "bvneg" | "bvnot" | "bvmul" | "sign_extend" | "extract" => {
            let a = terms.input(width)?;
            of_one(terms, name, a, numbers)
        }
        _ => make_of_two(terms, name, width),
    }
}

/// What the words of a row of characters say after the name and the width.
#[derive(Clone, Copy)]
enum Table {
    /// Numbers, and a character for each list of values, the first input's counting up first: 48
    /// and the value.
    Small,
    /// A character for each pair of ends, the first input's going first: the place of the value
    /// among the marks.
    Ends,
}

/// A word of a row.
fn word(row: &str, index: usize) -> &str {
    row.split(' ').nth(index).unwrap_or("")
}

/// The number of a word of a row.
fn number(row: &str, index: usize) -> i128 {
    word(row, index).parse().unwrap_or(0)
}

/// A value among the words of a row.
fn row_entry(row: &str, index: usize) -> u128 {
    word(row, index).parse().unwrap_or(0)
}

/// The width of a row's inputs.
fn row_width(row: &str) -> u32
    ensures { IsWidth result }
{
    number(row, 1).clamp(1, MAX_WIDTH.into()) as u32
}

/// The numbers of a row's function.
fn row_numbers(row: &str) -> Numbers {
    Numbers {
        coeff: i64::try_from(number(row, 2)).unwrap_or(0),
        high: u32::try_from(number(row, 3)).unwrap_or(0),
        low: u32::try_from(number(row, 4)).unwrap_or(0),
    }
}

/// The value of a term where the inputs take their values from the front of this list.
fn value(alloc: Global, terms: &Terms, id: TermId, values: &[u128]) -> Option<u128>
    requires { id.0 < length terms.now.nodes }
{
    let values = values.get(..terms.inputs().len())?;
    if !terms.are_values(values) {
        return None;
    }
    let mut room = terms.reserve_eval(alloc).ok()?;
    Some(terms.eval(id, values, &mut room))
}

/// The value of a row's term where its inputs take their values from the front of this list.
fn row_value(alloc: Global, row: &str, values: &[u128]) -> Option<u128> {
    let mut terms = Terms::new(alloc);
    let id = make(&mut terms, word(row, 0), row_width(row), row_numbers(row)).ok()?;
    value(alloc, &terms, id, values)
}

/// The list of values of this number, the first input's counting up first.
fn small_values(row: &str, n: u128) -> [u128; 3] {
    let size = 1 << (row_width(row) % 8);
    let first = if word(row, 0) == "ite" { 2 } else { size };
    let rest = n / first;
    [n % first, rest % size, rest / size % size]
}

/// The pair of ends of this number: the least, the least but one, and those at the sign.
fn end_values(row: &str, n: usize) -> [u128; 3] {
    let all = u128::MAX >> (128 - row_width(row));
    let half = all / 2 + 1;
    let ends = [0, 1, half - 1, half, all];
    [ends[n % 5], ends[n / 5 % 5], 0]
}

/// The value of a character among the marks.
fn mark(width: u32, code: u8) -> u128
    requires { IsWidth width }
{
    let all = u128::MAX >> (128 - width);
    let half = all / 2 + 1;
    let code_value = u128::from(code);
    let mark = match code {
        b'0'..=b'3' => code_value - 48,
        b'4'..=b'9' => half.wrapping_add(code_value).wrapping_sub(55),
        _ => all.wrapping_add(code_value).wrapping_sub(99),
    };
    mark & all
}

/// Whether a row of characters is right at the list of values of this number.
fn is_right_at(alloc: Global, table: Table, row: &str, n: usize, code: u8) -> bool {
    match table {
        Table::Small => {
            let values = small_values(row, n as u128);
            row_value(alloc, row, &values) == Some(u128::from(code.wrapping_sub(48)))
        }
        Table::Ends => {
            let values = end_values(row, n);
            row_value(alloc, row, &values) == Some(mark(row_width(row), code))
        }
    }
}

/// Whether a row of characters is right at all its lists of values.
fn is_right(alloc: Global, table: Table, row: &str) -> bool {
    let codes = match table {
        Table::Small => word(row, 5),
        Table::Ends => word(row, 2),
    };
    for (n, code) in codes.bytes().enumerate() {
        if !is_right_at(alloc, table, row, n, code) {
            return false;
        }
    }
    true
}

/// Whether a row of a single value is right: numbers, the values of three inputs, and the
/// function's value.
fn is_single_right(alloc: Global, row: &str) -> bool {
    let values = [5, 6, 7].map(|index| row_entry(row, index));
    row_value(alloc, row, &values) == Some(row_entry(row, 8))
}

const SMALL: &str = "\
bvadd 1 0 0 0 0110\n\
bvsub 1 0 0 0 0110\n\
bvslt 1 0 0 0 0100\n\
bvsle 1 0 0 0 1101\n\
bvult 1 0 0 0 0010\n\
= 1 0 0 0 1001\n\
bvand 1 0 0 0 0001\n\
bvor 1 0 0 0 0111\n\
concat 1 0 0 0 0213\n\
bvneg 1 0 0 0 01\n\
bvnot 1 0 0 0 10\n\
bvmul 1 -5 0 0 01\n\
bvmul 1 -1 0 0 01\n\
bvmul 1 0 0 0 00\n\
bvmul 1 3 0 0 01\n\
sign_extend 1 0 1 0 01\n\
sign_extend 1 0 2 0 03\n\
sign_extend 1 0 3 0 07\n\
extract 1 0 0 0 01\n\
ite 1 0 0 0 00011011\n\
bvadd 2 0 0 0 0123123023013012\n\
bvsub 2 0 0 0 0123301223011230\n\
bvslt 2 0 0 0 0011101100000010\n\
bvsle 2 0 0 0 1011111100100011\n\
bvult 2 0 0 0 0000100011001110\n\
= 2 0 0 0 1000010000100001\n\
bvand 2 0 0 0 0000010100220123\n\
bvor 2 0 0 0 0123113323233333\n\
concat 2 0 0 0 048<159=26:>37;?\n\
bvneg 2 0 0 0 0321\n\
bvnot 2 0 0 0 3210\n\
bvmul 2 -5 0 0 0321\n\
bvmul 2 -1 0 0 0321\n\
bvmul 2 0 0 0 0000\n\
bvmul 2 3 0 0 0321\n\
sign_extend 2 0 2 0 0123\n\
sign_extend 2 0 3 0 0167\n\
sign_extend 2 0 4 0 01>?\n\
extract 2 0 0 0 0101\n\
extract 2 0 1 0 0123\n\
extract 2 0 1 1 0011\n\
ite 2 0 0 0 00010203101112132021222330313233\n\
bvadd 3 0 0 0 0123456712345670234567013456701245670123567012346701234570123456\n\
bvsub 3 0 0 0 0123456770123456670123455670123445670123345670122345670112345670\n\
bvslt 3 0 0 0 0000111110001111110011111110111100000000000010000000110000001110\n\
bvsle 3 0 0 0 1000111111001111111011111111111100001000000011000000111000001111\n\
bvult 3 0 0 0 0000000010000000110000001110000011110000111110001111110011111110\n\
= 3 0 0 0 1000000001000000001000000001000000001000000001000000001000000001\n\
bvand 3 0 0 0 0000000001010101002200220123012300004444010145450022446601234567\n\
bvor 3 0 0 0 0123456711335577232367673333777745674567557755776767676777777777\n\
concat 3 0 0 0 08@HPX`h19AIQYai2:BJRZbj3;CKS[ck4<DLT\\dl5=EMU]em6>FNV^fn7?GOW_go\n\
bvneg 3 0 0 0 07654321\n\
bvnot 3 0 0 0 76543210\n\
bvmul 3 -5 0 0 03614725\n\
bvmul 3 -1 0 0 07654321\n\
bvmul 3 0 0 0 00000000\n\
bvmul 3 3 0 0 03614725\n\
sign_extend 3 0 3 0 01234567\n\
sign_extend 3 0 4 0 0123<=>?\n\
sign_extend 3 0 5 0 0123LMNO\n\
extract 3 0 0 0 01010101\n\
extract 3 0 1 0 01230123\n\
extract 3 0 1 1 00110011\n\
extract 3 0 2 0 01234567\n\
extract 3 0 2 1 00112233\n\
extract 3 0 2 2 00001111\n\
ite 3 0 0 0 0001020304050607101112131415161720212223242526273031323334353637\
4041424344454647505152535455565760616263646566677071727374757677";

#[test]
fn has_each_value_at_one_to_three_bits(rt: HostRuntime) {
    for row in SMALL.lines() {
        assert!(rt; is_right(rt.alloc(), Table::Small, row));
    }
}

const ENDS: &str = "\
bvadd 1 0101110100010111010010100\n\
bvadd 8 0167c1278067bc578c06c056b\n\
bvadd 32 0167c1278067bc578c06c056b\n\
bvadd 64 0167c1278067bc578c06c056b\n\
bvadd 80 0167c1278067bc578c06c056b\n\
bvadd 128 0167c1278067bc578c06c056b\n\
bvsub 1 0101110100010111010010100\n\
bvsub 8 0167cc056b8901778c0612780\n\
bvsub 32 0167cc056b8901778c0612780\n\
bvsub 64 0167cc056b8901778c0612780\n\
bvsub 80 0167cc056b8901778c0612780\n\
bvsub 128 0167cc056b8901778c0612780\n\
bvslt 1 0101100000010110000000000\n\
bvslt 8 0001110011110110000000010\n\
bvslt 32 0001110011110110000000010\n\
bvslt 64 0001110011110110000000010\n\
bvslt 80 0001110011110110000000010\n\
bvslt 128 0001110011110110000000010\n\
bvsle 1 1111101011111110101101011\n\
bvsle 8 1001111011111110001000011\n\
bvsle 32 1001111011111110001000011\n\
bvsle 64 1001111011111110001000011\n\
bvsle 80 1001111011111110001000011\n\
bvsle 128 1001111011111110001000011\n\
bvult 1 0000010100000001010010100\n\
bvult 8 0000010000110001110011110\n\
bvult 32 0000010000110001110011110\n\
bvult 64 0000010000110001110011110\n\
bvult 80 0000010000110001110011110\n\
bvult 128 0000010000110001110011110\n\
= 1 1010001011101000101101011\n\
= 8 1000001000001000001000001\n\
= 32 1000001000001000001000001\n\
= 64 1000001000001000001000001\n\
= 80 1000001000001000001000001\n\
= 128 1000001000001000001000001\n\
bvand 1 0000001011000000101101011\n\
bvand 8 000000110101606000770167c\n\
bvand 32 000000110101606000770167c\n\
bvand 64 000000110101606000770167c\n\
bvand 80 000000110101606000770167c\n\
bvand 128 000000110101606000770167c\n\
bvor 1 0101111111010111111111111\n\
bvor 8 0167c1168c666cc78c7cccccc\n\
bvor 32 0167c1168c666cc78c7cccccc\n\
bvor 64 0167c1168c666cc78c7cccccc\n\
bvor 80 0167c1168c666cc78c7cccccc\n\
bvor 128 0167c1168c666cc78c7cccccc";

#[test]
fn has_the_values_at_the_ends(rt: HostRuntime) {
    for row in ENDS.lines() {
        assert!(rt; is_right(rt.alloc(), Table::Ends, row));
    }
}

const SINGLE: &str = "\
bvneg 1 0 0 0 1 0 0 1\n\
bvnot 1 0 0 0 0 0 0 1\n\
bvnot 1 0 0 0 1 0 0 0\n\
bvmul 1 -1 0 0 1 0 0 1\n\
bvmul 1 -9223372036854775808 0 0 1 0 0 0\n\
bvmul 1 9223372036854775807 0 0 1 0 0 1\n\
bvmul 1 -3 0 0 0 0 0 0\n\
sign_extend 1 0 80 0 0 0 0 0\n\
sign_extend 1 0 80 0 1 0 0 1208925819614629174706175\n\
extract 1 0 0 0 1 0 0 1\n\
extract 1 0 0 0 0 0 0 0\n\
ite 1 0 0 0 1 1 0 1\n\
ite 1 0 0 0 0 1 1 1\n\
bvneg 8 0 0 0 1 0 0 255\n\
bvneg 8 0 0 0 128 0 0 128\n\
bvnot 8 0 0 0 0 0 0 255\n\
bvnot 8 0 0 0 128 0 0 127\n\
bvmul 8 -1 0 0 255 0 0 1\n\
bvmul 8 -9223372036854775808 0 0 255 0 0 0\n\
bvmul 8 9223372036854775807 0 0 128 0 0 128\n\
bvmul 8 -3 0 0 127 0 0 131\n\
sign_extend 8 0 80 0 127 0 0 127\n\
sign_extend 8 0 80 0 128 0 0 1208925819614629174706048\n\
extract 8 0 7 7 128 0 0 1\n\
extract 8 0 7 0 255 0 0 255\n\
extract 8 0 4 0 127 0 0 31\n\
ite 8 0 0 0 1 255 127 255\n\
ite 8 0 0 0 0 255 128 128\n\
bvneg 32 0 0 0 1 0 0 4294967295\n\
bvneg 32 0 0 0 2147483648 0 0 2147483648\n\
bvnot 32 0 0 0 0 0 0 4294967295\n\
bvnot 32 0 0 0 2147483648 0 0 2147483647\n\
bvmul 32 -1 0 0 4294967295 0 0 1\n\
bvmul 32 -9223372036854775808 0 0 4294967295 0 0 0\n\
bvmul 32 9223372036854775807 0 0 2147483648 0 0 2147483648\n\
bvmul 32 -3 0 0 2147483647 0 0 2147483651\n\
sign_extend 32 0 80 0 2147483647 0 0 2147483647\n\
sign_extend 32 0 80 0 2147483648 0 0 1208925819614627027222528\n\
extract 32 0 31 31 2147483648 0 0 1\n\
extract 32 0 31 0 4294967295 0 0 4294967295\n\
extract 32 0 16 0 2147483647 0 0 131071\n\
ite 32 0 0 0 1 4294967295 2147483647 4294967295\n\
ite 32 0 0 0 0 4294967295 2147483648 2147483648\n\
bvneg 64 0 0 0 1 0 0 18446744073709551615\n\
bvneg 64 0 0 0 9223372036854775808 0 0 9223372036854775808\n\
bvnot 64 0 0 0 0 0 0 18446744073709551615\n\
bvnot 64 0 0 0 9223372036854775808 0 0 9223372036854775807\n\
bvmul 64 -1 0 0 18446744073709551615 0 0 1\n\
bvmul 64 -9223372036854775808 0 0 18446744073709551615 0 0 9223372036854775808\n\
bvmul 64 9223372036854775807 0 0 9223372036854775808 0 0 9223372036854775808\n\
bvmul 64 -3 0 0 9223372036854775807 0 0 9223372036854775811\n\
sign_extend 64 0 80 0 9223372036854775807 0 0 9223372036854775807\n\
sign_extend 64 0 80 0 9223372036854775808 0 0 1208916596242592319930368\n\
extract 64 0 63 63 9223372036854775808 0 0 1\n\
extract 64 0 63 0 18446744073709551615 0 0 18446744073709551615\n\
extract 64 0 32 0 9223372036854775807 0 0 8589934591\n\
ite 64 0 0 0 1 18446744073709551615 9223372036854775807 18446744073709551615\n\
ite 64 0 0 0 0 18446744073709551615 9223372036854775808 9223372036854775808\n\
bvneg 80 0 0 0 1 0 0 1208925819614629174706175\n\
bvneg 80 0 0 0 604462909807314587353088 0 0 604462909807314587353088\n\
bvnot 80 0 0 0 0 0 0 1208925819614629174706175\n\
bvnot 80 0 0 0 604462909807314587353088 0 0 604462909807314587353087\n\
bvmul 80 -1 0 0 1208925819614629174706175 0 0 1\n\
bvmul 80 -9223372036854775808 0 0 1208925819614629174706175 0 0 9223372036854775808\n\
bvmul 80 9223372036854775807 0 0 604462909807314587353088 0 0 604462909807314587353088\n\
bvmul 80 -3 0 0 604462909807314587353087 0 0 604462909807314587353091\n\
sign_extend 80 0 80 0 604462909807314587353087 0 0 604462909807314587353087\n\
sign_extend 80 0 80 0 604462909807314587353088 0 0 604462909807314587353088\n\
extract 80 0 79 79 604462909807314587353088 0 0 1\n\
extract 80 0 79 0 1208925819614629174706175 0 0 1208925819614629174706175\n\
extract 80 0 40 0 604462909807314587353087 0 0 2199023255551\n\
ite 80 0 0 0 1 1208925819614629174706175 604462909807314587353087 1208925819614629174706175\n\
ite 80 0 0 0 0 1208925819614629174706175 604462909807314587353088 604462909807314587353088\n\
bvneg 128 0 0 0 1 0 0 340282366920938463463374607431768211455\n\
bvneg 128 0 0 0 170141183460469231731687303715884105728 0 0 170141183460469231731687303715884105728\n\
bvnot 128 0 0 0 0 0 0 340282366920938463463374607431768211455\n\
bvnot 128 0 0 0 170141183460469231731687303715884105728 0 0 170141183460469231731687303715884105727\n\
bvmul 128 -1 0 0 340282366920938463463374607431768211455 0 0 1\n\
bvmul 128 -9223372036854775808 0 0 340282366920938463463374607431768211455 0 0 9223372036854775808\n\
bvmul 128 9223372036854775807 0 0 170141183460469231731687303715884105728 0 0 \
    170141183460469231731687303715884105728\n\
bvmul 128 -3 0 0 170141183460469231731687303715884105727 0 0 170141183460469231731687303715884105731\n\
sign_extend 1 0 128 0 1 0 0 340282366920938463463374607431768211455\n\
sign_extend 64 0 128 0 9223372036854775808 0 0 340282366920938463454151235394913435648\n\
sign_extend 80 0 128 0 604462909807314587353088 0 0 340282366920937859000464800117180858368\n\
sign_extend 127 0 128 0 85070591730234615865843651857942052864 0 0 255211775190703847597530955573826158592\n\
sign_extend 128 0 128 0 170141183460469231731687303715884105727 0 0 170141183460469231731687303715884105727\n\
sign_extend 128 0 128 0 170141183460469231731687303715884105728 0 0 170141183460469231731687303715884105728\n\
extract 128 0 127 127 170141183460469231731687303715884105728 0 0 1\n\
extract 128 0 127 0 340282366920938463463374607431768211455 0 0 340282366920938463463374607431768211455\n\
extract 128 0 127 47 170141183460469231731687303715884105728 0 0 1208925819614629174706176\n\
extract 128 0 64 0 170141183460469231731687303715884105727 0 0 36893488147419103231\n\
ite 128 0 0 0 1 340282366920938463463374607431768211455 170141183460469231731687303715884105727 \
    340282366920938463463374607431768211455\n\
ite 128 0 0 0 0 340282366920938463463374607431768211455 170141183460469231731687303715884105728 \
    170141183460469231731687303715884105728\n\
concat 64 0 0 0 9223372036854775808 9223372036854775807 0 170141183460469231740910675752738881535\n\
concat 64 0 0 0 9223372036854775807 18446744073709551615 0 170141183460469231731687303715884105727\n\
concat 1 0 0 0 1 0 0 2\n\
concat 1 0 0 0 0 1 0 1\n\
concat 8 0 0 0 128 127 0 32895\n\
concat 8 0 0 0 127 255 0 32767\n\
concat 32 0 0 0 2147483648 2147483647 0 9223372039002259455\n\
concat 32 0 0 0 2147483647 4294967295 0 9223372036854775807\n\
concat 40 0 0 0 549755813888 549755813887 0 604462909807864343166975\n\
concat 40 0 0 0 549755813887 1099511627775 0 604462909807314587353087";

#[test]
fn has_single_values(rt: HostRuntime) {
    for row in SINGLE.lines() {
        assert!(rt; is_single_right(rt.alloc(), row));
    }
}

/// The greatest number of 128 bits.
const GREATEST: u128 = u128::MAX;

/// The goal that a constant that is made twice is the same.
fn constant_goal(alloc: Global) -> Option<Goal> {
    let mut terms = Terms::new(alloc);
    let a = terms.constant(128, GREATEST).ok()?;
    let b = terms.constant(128, GREATEST).ok()?;
    let same = terms.eq(a, b).ok()?;
    Goal::new(alloc, terms, same).ok()
}

/// Whether the goal has one constant and its root, which is 1, and no inputs.
fn is_one(alloc: Global, goal: &Goal) -> bool {
    goal.terms.len() == 2
        && value(alloc, &goal.terms, goal.root, &[]) == Some(1)
        && goal.inputs.is_empty()
}

#[test]
fn keeps_constants_and_makes_goals(rt: HostRuntime) {
    let right = match constant_goal(rt.alloc()) {
        Some(goal) => is_one(rt.alloc(), &goal),
        None => false,
    };
    assert!(rt; right);
}
