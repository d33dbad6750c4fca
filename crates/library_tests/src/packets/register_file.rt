//! Register files of every form, with the answers that the format and TOML's standard give.

use crate::packets::register_text::EXAMPLE;
use ntp_admin::{RegisterFault, read_reference, read_register};
use ntp_mac::{Algorithm, Key};
use ntp_service::{Address, Command, LineFault};
use std::alloc::{AllocError, Global};
use std::num::NonZero;
use std::process::Abort;
use std::test::Fail;
use test_support::reference;

// The document of the example with its customers in an array, the reference behind them, and no line feed at the end.
const INLINE: &str = r#"customer = [
    { address = "192.0.2.10", number = 7, algorithm = "md5", key = "6b6579", budget = 10 },
    { budget = 10, key = "6f74686572", algorithm = "sha1", number = 8, address = "192.0.2.20" }, # the second
]
reference = "0001ec00000000000000104e495354ec00000000000000""#;

// The same with quoted keys, literal texts, texts of several lines, escapes, and numbers in other bases.
const QUOTED: &str = r#""reference" = '0001ec00000000000000104e495354ec00000000000000'
[['customer']]
"address" = '192.0.2.10'
'number' = 0x7
algorithm = """md5"""
key = "\u0036b6579"
budget = 1_0
[[ "customer" ]]
"\u0061ddress" = "192.0.2.20"
number = 0b1000
algorithm = '''
sha1'''
key = '6f74686572'
budget = +10
"#;

// The same behind a byte order mark, with comments and blanks, and with lines that end in a carriage return and a
// line feed.
const SPACED: &str = "\u{feff}# customers\r
reference=\"0001ec00000000000000104e495354ec00000000000000\" # NIST\r
\r
\t[[customer]]\r
  budget = 0o12\r
  key = \"6B6579\"\r
  algorithm = \"md5\"\r
  number\t=\t7\r
  address = \"192.0.2.10\"\r
[[customer]]#\r
address = \"192.0.2.20\"\r
number = 8\r
algorithm = \"sha1\"\r
key = \"6F74686572\"\r
budget = 10";

// A reference, as a line.
const REFERENCE: &str = "reference = \"0001ec00000000000000104e495354ec00000000000000\"\n";

// The keys of a customer.
const CUSTOMER: [&str; 5] = [
    "address = \"192.0.2.10\"",
    "number = 7",
    "algorithm = \"md5\"",
    "key = \"6b6579\"",
    "budget = 10",
];

// An enrolment.
fn enrolment(last: u8, number: u16, key: Key, budget: u16) -> Result<Command, Fail> {
    Ok(Command::Enrol {
        address: Address([192, 0, 2, last]),
        number: NonZero::<u16>::new(number).ok_or("no number")?,
        key,
        budget: NonZero::<u16>::new(budget).ok_or("no budget")?,
    })
}

// The two customers of the example.
fn customers() -> Result<[Command; 2], Fail> {
    Ok([
        enrolment(10, 7, Key::new(Algorithm::Md5, b"key")?, 10)?,
        enrolment(20, 8, Key::new(Algorithm::Sha1, b"other")?, 10)?,
    ])
}

// A file of the reference and the customer, with a line in place of one of its keys.
fn file_with(alloc: Global, place: usize, instead: &str) -> Result<String, AllocError> {
    let mut text = String::from_str(alloc, REFERENCE)?;
    text.push_str("[[customer]]\n")?;
    for (at, line) in CUSTOMER.iter().enumerate() {
        text.push_str(if at == place { instead } else { *line })?;
        text.push('\n')?;
    }
    Ok(text)
}

// Whether the readers find these faults, or none.
fn has_faults(
    text: &str,
    register: Option<RegisterFault>,
    reference: Option<RegisterFault>,
    alloc: Global,
) -> bool {
    read_register(alloc, text).err() == register && read_reference(alloc, text).err() == reference
}

#[test]
fn one_document_in_four_forms(rt: HostRuntime) -> Result<(), Fail> {
    let state = reference()?;
    let expected = customers()?;
    for text in [EXAMPLE, INLINE, QUOTED, SPACED] {
        let commands = read_register(rt.alloc(), text)?;
        assert!(rt; commands.as_slice() == expected.as_slice(), "of {text}");
        assert!(rt; read_reference(rt.alloc(), text)? == state, "of {text}");
    }
    Ok(())
}

// Files with no customers.
const NO_CUSTOMERS: [&str; 4] = [
    "reference = \"00\"",
    "reference = \"\"",
    "reference = \"0001ec00000000000000104e495354ec00000000000000\"",
    "customer = []\nreference = \"0001ec00000000000000104e495354ec00000000000000\"",
];

#[test]
fn files_with_no_customers(rt: HostRuntime) -> Result<(), Fail> {
    for text in NO_CUSTOMERS {
        assert!(rt; read_register(rt.alloc(), text)?.is_empty(), "of {text}");
    }
    Ok(())
}

// What is wrong with a file.
const TOML: Option<RegisterFault> = Some(RegisterFault::Toml);

const SHAPE: Option<RegisterFault> = Some(RegisterFault::Shape);

const BAD: Option<RegisterFault> = Some(RegisterFault::Reference);

// Files, and what the reader of registers and that of references find wrong with each.
const TOP_LEVELS: [(&str, Option<RegisterFault>, Option<RegisterFault>); 30] = [
    ("", SHAPE, SHAPE),
    ("# nothing\n", SHAPE, SHAPE),
    ("reference = ", TOML, TOML),
    ("reference", TOML, TOML),
    ("reference = \"00\"\nreference = \"00\"", TOML, TOML),
    ("reference = \"00\"\rcustomer = []", TOML, TOML),
    ("reference = \"00\nx = 1", TOML, TOML),
    ("reference = \"00\"\n\"reference\" = \"00\"", TOML, TOML),
    ("reference = \"00\"", None, BAD),
    ("reference = \"\"", None, BAD),
    (
        "reference = \"0001ec00000000000000104e495354ec0000000000000g\"",
        None,
        BAD,
    ),
    (
        "reference = \"0301ec00000000000000104e495354ec00000000000000\"",
        None,
        BAD,
    ),
    (
        "reference = \"0310ec00000000000000104e495354ec00000000000000\"",
        None,
        None,
    ),
    (
        "reference = \"0001EC00000000000000104E495354EC00000000000000\"",
        None,
        None,
    ),
    ("reference.x = \"00\"", SHAPE, SHAPE),
    ("[reference]", SHAPE, SHAPE),
    ("References = \"00\"", SHAPE, SHAPE),
    ("x = 1\nreference = \"00\"", SHAPE, SHAPE),
    ("reference = \"00\"\n[x]", SHAPE, SHAPE),
    ("reference = \"00\"\nx.y = 1", SHAPE, SHAPE),
    ("reference = \"00\"\ncustomer = []\nx = 1", SHAPE, SHAPE),
    ("customer = []", SHAPE, SHAPE),
    ("customer = []\nx = \"00\"", SHAPE, SHAPE),
    ("reference = \"00\"\ncustomer = {}", SHAPE, SHAPE),
    ("reference = \"00\"\n[customer]\nnumber = 7", SHAPE, SHAPE),
    (
        "reference = \"00\"\ncustomer = []\n[[customer]]",
        TOML,
        TOML,
    ),
    ("reference = \"00\"\ncustomer = [1]", SHAPE, BAD),
    ("reference = \"00\"\ncustomer = [[]]", SHAPE, BAD),
    ("reference = \"00\"\ncustomer = [{}]", SHAPE, BAD),
    ("reference = \"00\"\n[[customer]]", SHAPE, BAD),
];

#[test]
fn top_levels(rt: HostRuntime) {
    for (text, register, reference) in TOP_LEVELS {
        assert!(rt;
            has_faults(text, register, reference, rt.alloc()),
            "of {text}"
        );
    }
}

// The readers find these faults, or none, in files with one of these lines in place of a key of the customer.
fn have_faults(
    rt: &impl Abort,
    alloc: Global,
    files: &[(usize, &str)],
    register: RegisterFault,
    reference: Option<RegisterFault>,
) -> Result<(), AllocError> {
    for (place, instead) in files {
        let text = file_with(alloc, *place, instead)?;
        let has_faults = has_faults(text.as_str(), Some(register), reference, alloc);
        assert!(rt; has_faults, "of {instead}");
    }
    Ok(())
}

#[test]
fn each_key_of_a_customer_missing_or_doubled(rt: HostRuntime) -> Result<(), Fail> {
    let alloc = rt.alloc();
    for (place, line) in CUSTOMER.iter().enumerate() {
        have_faults(&rt, alloc, &[(place, "")], RegisterFault::Shape, None)?;
        let twice = format!(in alloc; "{line}\n{line}")?;
        let toml = RegisterFault::Toml;
        have_faults(&rt, alloc, &[(place, twice.as_str())], toml, Some(toml))?;
    }
    Ok(())
}

// A value of each type.
const VALUES: [&str; 7] = [
    "\"7\"",
    "7",
    "7.0",
    "true",
    "1979-05-27",
    "[7]",
    "{ x = 7 }",
];

// The names of the keys of a customer, and the type that each has.
const TYPES: [(&str, usize); 5] = [
    ("address", 0),
    ("number", 1),
    ("algorithm", 0),
    ("key", 0),
    ("budget", 1),
];

#[test]
fn each_other_type_at_each_key(rt: HostRuntime) -> Result<(), Fail> {
    for (kind, value) in VALUES.iter().enumerate() {
        for (place, (name, own)) in TYPES.iter().enumerate() {
            if kind != *own {
                let line = format!(in rt.alloc(); "{name} = {value}")?;
                let files = [(place, line.as_str())];
                have_faults(&rt, rt.alloc(), &files, RegisterFault::Shape, None)?;
            }
        }
    }
    Ok(())
}

// Neither reader reads this beginning with a value behind it.
fn is_no_value(rt: &impl Abort, alloc: Global, before: &str, value: &str) -> Result<(), Fail> {
    let text = format!(in alloc; "{before}{value}")?;
    assert!(rt; has_faults(text.as_str(), SHAPE, SHAPE, alloc), "of {text}");
    Ok(())
}

#[test]
fn each_other_type_at_the_top_level(rt: HostRuntime) -> Result<(), Fail> {
    let customer = format!(in rt.alloc(); "{REFERENCE}customer = ")?;
    for (kind, value) in VALUES.iter().enumerate() {
        // A reference is a text, and the customers are an array.
        if kind != 0 {
            is_no_value(&rt, rt.alloc(), "reference = ", value)?;
        }
        if kind != 5 {
            is_no_value(&rt, rt.alloc(), customer.as_str(), value)?;
        }
    }
    Ok(())
}

// Lines that make no TOML, each in place of a key.
const NO_DOCUMENT: [(usize, &str); 12] = [
    (0, "address = \"192.0.2.10\"\n\"address\" = \"192.0.2.10\""),
    (0, "address = \"192.0.2.10\"\naddress.x = 1"),
    (1, "number = 07"),
    (1, "number = 7_"),
    (1, "number = 9223372036854775808"),
    (1, "number = -9223372036854775809"),
    (1, "number = 0x1_0000_0000_0000_0000"),
    (2, "algorithm = md5"),
    (3, "key = \"6b\\x\""),
    (3, "key = 6b6579"),
    (4, "budget = 10 20"),
    (4, "budget = 10\n[customer]"),
];

#[test]
fn customers_that_make_no_document(rt: HostRuntime) -> Result<(), Fail> {
    let toml = RegisterFault::Toml;
    have_faults(&rt, rt.alloc(), &NO_DOCUMENT, toml, Some(toml))?;
    Ok(())
}

// Lines that give a customer of another form.
const OTHER_FORMS: [(usize, &str); 12] = [
    (1, "# number = 7"),
    (4, "Budget = 10"),
    (0, "address.text = \"192.0.2.10\""),
    (1, "number = inf"),
    (4, "budget = 1e1"),
    (4, "budget = 10\nx = 1"),
    (4, "budget = 10\nx.y = 1"),
    (4, "budget = 10\n[customer.x]"),
    (4, "budget = 10\n[[customer.x]]"),
    (4, "budget = 10\nreference = \"00\""),
    (4, "budget = 10\n[[customer]]"),
    (1, "number = 0\nx = 1"),
];

#[test]
fn customers_of_another_form(rt: HostRuntime) -> Result<(), Fail> {
    have_faults(&rt, rt.alloc(), &OTHER_FORMS, RegisterFault::Shape, None)?;
    Ok(())
}

// The readers find this fault in the value of the key in files with one of these lines in place of it.
fn have_a_faulty_value(
    rt: &impl Abort,
    place: usize,
    fault: LineFault,
    lines: &[&str],
    alloc: Global,
) -> Result<(), AllocError> {
    let entry = RegisterFault::Entry { place: 0, fault };
    for line in lines {
        have_faults(rt, alloc, &[(place, line)], entry, None)?;
    }
    Ok(())
}

// Lines with a faulty value, by their keys.
const ADDRESSES: [&str; 6] = [
    "address = \"\"",
    "address = \"192.0.2\"",
    "address = \"192.0.2.300\"",
    "address = \"192.0.02.10\"",
    "address = \"192.0.2.10 \"",
    "address = \"x\"\n",
];

const NUMBERS: [&str; 7] = [
    "number = 0",
    "number = -0",
    "number = -7",
    "number = 65536",
    "number = 65543",
    "number = 9223372036854775807",
    "number = -9223372036854775808",
];

const ALGORITHMS: [&str; 3] = [
    "algorithm = \"\"",
    "algorithm = \"sha2\"",
    "algorithm = \"MD5\"",
];

const KEYS: [&str; 4] = [
    "key = \"\"",
    "key = \"6b657\"",
    "key = \"6b657g\"",
    "key = \"000102030405060708090a0b0c0d0e0f101112131415161718191a1b1c1d1e1f20\"",
];

const BUDGETS: [&str; 3] = ["budget = 0", "budget = -1", "budget = 0x10000"];

const FAULTY_VALUES: [(usize, LineFault, &[&str]); 5] = [
    (0, LineFault::Address, &ADDRESSES),
    (1, LineFault::Number, &NUMBERS),
    (2, LineFault::Algorithm, &ALGORITHMS),
    (3, LineFault::KeyText, &KEYS),
    (4, LineFault::Budget, &BUDGETS),
];

#[test]
fn customers_with_a_faulty_value(rt: HostRuntime) -> Result<(), Fail> {
    for (place, fault, lines) in FAULTY_VALUES {
        have_a_faulty_value(&rt, place, fault, lines, rt.alloc())?;
    }
    Ok(())
}

/// The octets of the longest key.
const LONGEST_KEY: [u8; 32] = [
    0, 1, 2, 3, 4, 5, 6, 7, 8, 9, 10, 11, 12, 13, 14, 15, 16, 17, 18, 19, 20, 21, 22, 23, 24, 25,
    26, 27, 28, 29, 30, 31,
];

// The line of the longest key.
const LONGEST: &str = "key = \"000102030405060708090a0b0c0d0e0f101112131415161718191a1b1c1d1e1f\"";

// Lines with a value at its limit, each in place of a key; and the address's last octet, the number, the key and the budget.
const LIMITS: [(usize, &str, u8, u16, &[u8], u16); 7] = [
    (1, "number = 1", 10, 1, b"key", 10),
    (1, "number = 65_535", 10, 65_535, b"key", 10),
    (4, "budget = 1", 10, 7, b"key", 1),
    (4, "budget = 0xFFFF", 10, 7, b"key", 65_535),
    (0, "address = \"192.0.2.255\"", 255, 7, b"key", 10),
    (3, "key = \"00\"", 10, 7, b"\0", 10),
    (3, LONGEST, 10, 7, &LONGEST_KEY, 10),
];

// Whether a file with a line in place of a key of the customer gives just this enrolment.
fn gives(alloc: Global, place: usize, instead: &str, expected: Command) -> Result<bool, Fail> {
    let text = file_with(alloc, place, instead)?;
    let commands = read_register(alloc, text.as_str())?;
    Ok(commands.as_slice() == [expected].as_slice())
}

#[test]
fn values_at_their_limits(rt: HostRuntime) -> Result<(), Fail> {
    for (place, instead, last, number, key, budget) in LIMITS {
        let expected = enrolment(last, number, Key::new(Algorithm::Md5, key)?, budget)?;
        assert!(rt;
            gives(rt.alloc(), place, instead, expected)?,
            "of {instead}"
        );
    }
    Ok(())
}

// Customers: a good one, and others with one fault or more.
const GOOD: &str =
    "{ address = \"192.0.2.10\", number = 7, algorithm = \"md5\", key = \"6b6579\", budget = 10 }";

const ALL_WRONG: &str = "{ address = \"\", number = 0, algorithm = \"\", key = \"\", budget = 0 }";

const NO_BUDGET: &str =
    "{ address = \"192.0.2.10\", number = 7, algorithm = \"md5\", key = \"6b6579\" }";

const NUMBER_0: &str =
    "{ address = \"192.0.2.20\", number = 0, algorithm = \"\", key = \"\", budget = 0 }";

const KEY_0: &str =
    "{ address = \"192.0.2.20\", number = 8, algorithm = \"sha1\", key = \"\", budget = 0 }";

// What is wrong first with a file of three customers.
fn is_first(
    rt: &impl Abort,
    alloc: Global,
    [first, second, third]: [&str; 3],
    expected: Option<RegisterFault>,
) -> Result<(), Fail> {
    let text = format!(in alloc; "{REFERENCE}customer = [{first}, {second}, {third}]")?;
    assert!(rt;
        has_faults(text.as_str(), expected, None, alloc),
        "of {text}"
    );
    Ok(())
}

#[test]
fn the_first_fault_in_file_order(rt: HostRuntime) -> Result<(), Fail> {
    let alloc = rt.alloc();
    is_first(&rt, alloc, [GOOD, GOOD, GOOD], None)?;
    is_first(
        &rt,
        alloc,
        [GOOD, ALL_WRONG, NUMBER_0],
        at(1, LineFault::Address),
    )?;
    is_first(
        &rt,
        alloc,
        [GOOD, NUMBER_0, KEY_0],
        at(1, LineFault::Number),
    )?;
    is_first(&rt, alloc, [GOOD, GOOD, KEY_0], at(2, LineFault::KeyText))?;
    is_first(
        &rt,
        alloc,
        [NUMBER_0, NO_BUDGET, GOOD],
        at(0, LineFault::Number),
    )?;
    is_first(&rt, alloc, [GOOD, NO_BUDGET, NUMBER_0], SHAPE)?;
    is_first(&rt, alloc, [GOOD, "7", NUMBER_0], SHAPE)
}

// The fault of a customer.
fn at(place: u64, fault: LineFault) -> Option<RegisterFault> {
    Some(RegisterFault::Entry { place, fault })
}
