use super::*;
use lua_tree::LibName;
use std::alloc::Global;
use std::hash::{BuildHasher, BuildHasherDefault, DefaultHasher};
use std::process::Abort;
use std::test::Fail;
use tl_base::NoMemory;

const LEAST: i64 = i64::MIN;

const GREATEST: i64 = i64::MAX;

const EDGES: [i64; 7] = [LEAST, -1, 0, 1, 63, 64, GREATEST];

// What each operation gives of the edges, a row for each left operand: computed by Python's whole numbers.
const ADD: &str = "
    0 9223372036854775807 -9223372036854775808 -9223372036854775807 -9223372036854775745 -9223372036854775744 -1
    9223372036854775807 -2 -1 0 62 63 9223372036854775806
    -9223372036854775808 -1 0 1 63 64 9223372036854775807
    -9223372036854775807 0 1 2 64 65 -9223372036854775808
    -9223372036854775745 62 63 64 126 127 -9223372036854775746
    -9223372036854775744 63 64 65 127 128 -9223372036854775745
    -1 9223372036854775806 9223372036854775807 -9223372036854775808 -9223372036854775746 -9223372036854775745 -2
";

const SUB: &str = "
    0 -9223372036854775807 -9223372036854775808 9223372036854775807 9223372036854775745 9223372036854775744 1
    9223372036854775807 0 -1 -2 -64 -65 -9223372036854775808
    -9223372036854775808 1 0 -1 -63 -64 -9223372036854775807
    -9223372036854775807 2 1 0 -62 -63 -9223372036854775806
    -9223372036854775745 64 63 62 0 -1 -9223372036854775744
    -9223372036854775744 65 64 63 1 0 -9223372036854775743
    -1 -9223372036854775808 9223372036854775807 9223372036854775806 9223372036854775744 9223372036854775743 0
";

const MUL: &str = "
    0 -9223372036854775808 0 -9223372036854775808 -9223372036854775808 0 -9223372036854775808
    -9223372036854775808 1 0 -1 -63 -64 -9223372036854775807
    0 0 0 0 0 0 0
    -9223372036854775808 -1 0 1 63 64 9223372036854775807
    -9223372036854775808 -63 0 63 3969 4032 9223372036854775745
    0 -64 0 64 4032 4096 -64
    -9223372036854775808 -9223372036854775807 0 9223372036854775807 9223372036854775745 -64 1
";

const BAND: &str = "
    -9223372036854775808 -9223372036854775808 0 0 0 0 0
    -9223372036854775808 -1 0 1 63 64 9223372036854775807
    0 0 0 0 0 0 0
    0 1 0 1 1 0 1
    0 63 0 1 63 0 63
    0 64 0 0 0 64 64
    0 9223372036854775807 0 1 63 64 9223372036854775807
";

const BOR: &str = "
    -9223372036854775808 -1 -9223372036854775808 -9223372036854775807 -9223372036854775745 -9223372036854775744 -1
    -1 -1 -1 -1 -1 -1 -1
    -9223372036854775808 -1 0 1 63 64 9223372036854775807
    -9223372036854775807 -1 1 1 63 65 9223372036854775807
    -9223372036854775745 -1 63 63 63 127 9223372036854775807
    -9223372036854775744 -1 64 65 127 64 9223372036854775807
    -1 -1 9223372036854775807 9223372036854775807 9223372036854775807 9223372036854775807 9223372036854775807
";

const BXOR: &str = "
    0 9223372036854775807 -9223372036854775808 -9223372036854775807 -9223372036854775745 -9223372036854775744 -1
    9223372036854775807 0 -1 -2 -64 -65 -9223372036854775808
    -9223372036854775808 -1 0 1 63 64 9223372036854775807
    -9223372036854775807 -2 1 0 62 65 9223372036854775806
    -9223372036854775745 -64 63 62 0 127 9223372036854775744
    -9223372036854775744 -65 64 65 127 0 9223372036854775743
    -1 -9223372036854775808 9223372036854775807 9223372036854775806 9223372036854775744 9223372036854775743 0
";

const SHL: &str = "
    0 4611686018427387904 -9223372036854775808 0 0 0 0
    0 9223372036854775807 -1 -2 -9223372036854775808 0 0
    0 0 0 0 0 0 0
    0 0 1 2 -9223372036854775808 0 0
    0 31 63 126 -9223372036854775808 0 0
    0 32 64 128 0 0 0
    0 4611686018427387903 9223372036854775807 -2 -9223372036854775808 0 0
";

const SHR: &str = "
    0 0 -9223372036854775808 4611686018427387904 1 0 0
    0 -2 -1 9223372036854775807 1 0 0
    0 0 0 0 0 0 0
    0 2 1 0 0 0 0
    0 126 63 31 0 0 0
    0 128 64 32 0 0 0
    0 -2 9223372036854775807 4611686018427387903 0 0 0
";

const IDIV: &str = "
    1 -9223372036854775808 none -9223372036854775808 -146402730743726601 -144115188075855872 -2
    0 1 none -1 -1 -1 -1
    0 0 none 0 0 0 0
    -1 -1 none 1 0 0 0
    -1 -63 none 63 1 0 0
    -1 -64 none 64 1 1 0
    -1 -9223372036854775807 none 9223372036854775807 146402730743726600 144115188075855871 1
";

const MODULO: &str = "
    0 0 none 0 55 0 9223372036854775806
    -1 0 none 0 62 63 9223372036854775806
    0 0 none 0 0 0 0
    -9223372036854775807 0 none 0 1 1 1
    -9223372036854775745 0 none 0 0 63 63
    -9223372036854775744 0 none 0 1 0 64
    -1 0 none 0 7 63 0
";

fn agrees<F: Fn(i64, i64) -> Option<i64>>(rt: &impl Abort, name: &str, operation: F, table: &str)
    requires { F.IsAlwaysCallable operation }
{
    let mut wants = table.split_whitespace();
    for a in EDGES {
        for b in EDGES {
            let want = wants.next().expect(rt, "one want for each pair");
            assert_eq!(rt;
                operation(a, b),
                want.parse::<i64>().ok(),
                "{name} of {a} and {b}"
            );
        }
    }
}

#[test]
fn operations_at_the_edges(rt: HostRuntime) {
    agrees(&rt, "add", |a, b| Some(add(a, b)), ADD);
    agrees(&rt, "sub", |a, b| Some(sub(a, b)), SUB);
    agrees(&rt, "mul", |a, b| Some(mul(a, b)), MUL);
    agrees(&rt, "band", |a, b| Some(band(a, b)), BAND);
    agrees(&rt, "bor", |a, b| Some(bor(a, b)), BOR);
    agrees(&rt, "bxor", |a, b| Some(bxor(a, b)), BXOR);
    agrees(&rt, "shl", |a, b| Some(shl(a, b)), SHL);
    agrees(&rt, "shr", |a, b| Some(shr(a, b)), SHR);
    agrees(&rt, "idiv", idiv, IDIV);
    agrees(&rt, "modulo", modulo, MODULO);
    assert_eq!(rt; EDGES.map(neg), [LEAST, 1, 0, -1, -63, -64, -GREATEST]);
    assert_eq!(rt; EDGES.map(bnot), [GREATEST, 0, -1, -2, -64, -65, LEAST]);
    for (a, b, quotient, remainder) in [(7, -2, -4, -1), (-7, 2, -4, 1)] {
        assert_eq!(rt;
            (idiv(a, b), modulo(a, b)),
            (Some(quotient), Some(remainder))
        );
    }
}

#[test]
fn numerals(rt: HostRuntime) {
    for (text, want) in [
        ("0", Some(0)),
        ("007", Some(7)),
        ("9223372036854775807", Some(GREATEST)),
        ("0x7fffffffffffffff", Some(GREATEST)),
        ("0XfF", Some(255)),
        ("0xffffffffffffffff", Some(-1)),
        ("0x10000000000000001", Some(1)),
        ("9223372036854775808", None),
        ("92233720368547758070", None),
        ("", None),
        ("0x", None),
        ("0xg", None),
        ("1e2", None),
        ("-1", None),
        ("1 ", None),
        ("1.0", None),
    ] {
        assert_eq!(rt; read_integer(text.as_bytes()), want, "{text}");
    }
}

fn shows(rt: &impl Abort, alloc: Global, value: Value, want: &str) -> Result<(), Fail> {
    let text = raw_text(alloc, &value)?;
    assert_eq!(rt; text.bytes(), want.as_bytes());
    Ok(())
}

fn sample(alloc: Global, index: usize) -> Result<Value, NoMemory> {
    Ok(match index {
        0 => Value::Nil,
        1 => Value::Bool(true),
        2 => Value::Bool(false),
        3 => Value::Int(LEAST),
        4 => Value::Int(0),
        5 => Value::Int(GREATEST),
        6 => Value::Table(12),
        7 => Value::Closure(3),
        8 => Value::Builtin(LibName::StringLen),
        9 => Value::Builtin(LibName::IpairsStep),
        _ => Value::Str(Text::new(alloc, b"hello")?),
    })
}

const SHOWN: [&str; 11] = [
    "nil",
    "true",
    "false",
    "-9223372036854775808",
    "0",
    "9223372036854775807",
    "table: 12",
    "function: 3",
    "builtin: string.len",
    "builtin: ipairs step",
    "hello",
];

#[test]
fn texts_of_values(rt: HostRuntime) -> Result<(), Fail> {
    for (index, want) in SHOWN.iter().enumerate() {
        let value = sample(rt.alloc(), index)?;
        shows(&rt, rt.alloc(), value, want)?;
    }
    let least = integer_text(rt.alloc(), LEAST)?;
    assert_eq!(rt; least.bytes(), SHOWN[3].as_bytes());
    Ok(())
}

fn is_number(value: Option<&Value>, number: i64) -> bool {
    match value {
        Some(Value::Int(found)) => *found == number,
        _ => false,
    }
}

#[test]
fn values_in_a_row(rt: HostRuntime) -> Result<(), Fail> {
    let mut values = Values::new(rt.alloc());
    assert!(rt; values.is_empty());
    for number in 0..3 {
        values.push(Value::Int(number))?;
    }
    assert_eq!(rt; values.len(), 3);
    assert_eq!(rt; values.as_slice().len(), 3);
    assert!(rt; is_number(values.get(2), 2));
    assert!(rt; values.get(3).is_none());
    Ok(())
}

fn hash_of(value: &Value) -> u64 {
    BuildHasherDefault::<DefaultHasher>::new().hash_one(value)
}

fn is_copied(rt: &impl Abort, value: Value) -> Result<(), Fail> {
    let copy = value.copy()?;
    assert!(rt; copy == value);
    assert_eq!(rt; hash_of(&copy), hash_of(&value));
    Ok(())
}

#[test]
fn copies(rt: HostRuntime) -> Result<(), Fail> {
    let text = Text::new(rt.alloc(), b"x")?;
    is_copied(&rt, Value::Str(text))?;
    is_copied(&rt, Value::default())?;
    is_copied(&rt, Value::Builtin(LibName::Print))?;
    Ok(())
}

#[test]
fn laws_compute_nothing() {
    quotient_and_remainder();
    remainder_has_sign_of_divisor();
    division_fails_by_zero();
    shifts_empty_words();
    words_wrap();
    tables_give_what_was_stored();
    keys_keep_their_places();
    next_goes_in_order();
    border_is_least();
}
