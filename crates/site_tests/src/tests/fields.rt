//! Fields of small documents, each answer worked out by hand.

use site_fields::{Field, Names, Place, ReadEntry, SiteFault, entries_of, integers_of, numbers_of};
use site_types::{Limits, ListLimits, PairLimits};
use std::alloc::Global;
use std::process::Abort;
use std::test::Fail;
use toml::{Table, Value};

const DOCUMENT: &str = "low = -100
high = 100
feet = -75
between = 30
on = true
name = \"\u{E9}t\u{E9}\"
numbers = [7, 0, 4095]
pairs = [[1, -2], [100, -100]]
inner = { high = 1 }
";

const HUNDRED: Limits = Limits {
    low: -100,
    high: 100,
};

const FEW: Limits = Limits { low: 1, high: 3 };

const FEW_OR_NONE: Limits = Limits { low: 0, high: 3 };

/// The document's fields are looked for as those of a fourth entry.
fn place(table: &Table) -> Place {
    Place { table, entry: 3 }
}

fn at(number: u16) -> Field {
    Field { number, entry: 3 }
}

/// How a field is read.
#[derive(Clone, Copy)]
enum How {
    Integer,
    Unscaled,
    Seconds,
    Metres,
    Height,
    Octet,
    OptionalInteger,
    OptionalLevels,
    OptionalText,
    Boolean,
    Text,
    Inner,
}

use How::{
    Boolean, Height, Inner, Integer, Metres, Octet, OptionalInteger, OptionalLevels, OptionalText,
    Seconds, Text, Unscaled,
};

/// A field's number there, none where nothing need stand; of a text its length, and of a table its field `high`.
fn read(place: &Place, how: How, number: u16, key: &str, limits: Limits) -> Read {
    match how {
        Integer => Ok(Some(i64::from(place.integer(number, key, limits)?))),
        Unscaled => Ok(Some(place.unscaled(number, key, limits)?)),
        Seconds => Ok(Some(place.seconds(number, key, limits)?)),
        Metres => Ok(Some(place.metres(number, key, limits)?)),
        Height => Ok(Some(place.height(number, key, limits)?)),
        Octet => Ok(Some(i64::from(place.octet(number, key)?))),
        OptionalInteger => wide(place.optional_integer(number, key, limits)?),
        OptionalLevels => wide(place.optional_levels(number, key, limits)?),
        OptionalText => length(place.optional_text(number, key, limits)?),
        Boolean => Ok(Some(i64::from(place.boolean(number, key)?))),
        Text => length(Some(place.text(number, key)?)),
        Inner => inner(&place.table(number, key)?, limits),
    }
}

type Read = Result<Option<i64>, SiteFault>;

fn wide(found: Option<i32>) -> Read {
    Ok(found.map(i64::from))
}

fn length(found: Option<&str>) -> Read {
    Ok(found.map(|text| text.len() as i64))
}

fn inner(place: &Place, limits: Limits) -> Read {
    wide(Some(place.integer(2, "high", limits)?))
}

/// How a field is read, its number and key, its limits, and what is read.
#[derive(Clone, Copy)]
struct Row(How, u16, &'static str, Limits, Found);

/// A number, nothing, or why it is refused.
#[derive(Clone, Copy)]
enum Found {
    Is(i64),
    Nothing,
    Range(i64),
    Kind,
    Missing,
}

use Found::{Is, Kind, Missing, Nothing, Range};

fn read_of(found: Found, number: u16) -> Read {
    match found {
        Is(value) => Ok(Some(value)),
        Nothing => Ok(None),
        Range(value) => Err(SiteFault::Range(at(number), value)),
        Kind => Err(SiteFault::Kind(at(number))),
        Missing => Err(SiteFault::Missing(at(number))),
    }
}

const ROWS: [Row; 25] = [
    Row(Integer, 1, "low", HUNDRED, Is(-100)),
    Row(Unscaled, 1, "high", HUNDRED, Is(100)),
    Row(Integer, 1, "high", FEW, Range(100)),
    Row(Seconds, 1, "low", HUNDRED, Is(-12_800)),
    Row(Metres, 1, "high", HUNDRED, Is(51_200)),
    Row(Height, 1, "feet", HUNDRED, Is(-92_160)),
    Row(Height, 2, "between", HUNDRED, Range(30)),
    Row(Octet, 1, "high", FEW, Is(100)),
    Row(Octet, 3, "low", FEW, Range(-100)),
    Row(Octet, 4, "on", FEW, Kind),
    Row(Octet, 5, "none", FEW, Missing),
    Row(OptionalInteger, 1, "none", FEW, Nothing),
    Row(OptionalInteger, 1, "high", HUNDRED, Is(100)),
    Row(OptionalLevels, 1, "feet", HUNDRED, Is(-3)),
    Row(OptionalLevels, 6, "high", FEW, Range(100)),
    Row(OptionalText, 1, "none", FEW, Nothing),
    Row(OptionalText, 1, "name", HUNDRED, Is(5)),
    Row(OptionalText, 7, "name", FEW, Range(5)),
    Row(OptionalText, 7, "high", FEW, Kind),
    Row(Boolean, 1, "on", FEW, Is(1)),
    Row(Boolean, 2, "high", FEW, Kind),
    Row(Text, 1, "name", FEW, Is(5)),
    Row(Text, 1, "on", FEW, Kind),
    Row(Inner, 1, "inner", FEW, Is(1)),
    Row(Inner, 1, "numbers", FEW, Kind),
];

#[test]
fn fields_by_their_kinds(rt: HostRuntime) -> Result<(), Fail> {
    let table = toml::table_from_slice(rt.alloc(), DOCUMENT.as_bytes())?;
    let place = place(&table);
    for Row(how, number, key, limits, found) in &ROWS {
        assert_eq!(rt;
            read(&place, *how, *number, *key, *limits),
            read_of(*found, *number),
            "{key}"
        );
    }
    Ok(())
}

#[test]
fn texts_as_they_stand(rt: HostRuntime) -> Result<(), Fail> {
    let table = toml::table_from_slice(rt.alloc(), DOCUMENT.as_bytes())?;
    let place = place(&table);
    assert!(rt; matches!(place.text(1, "name"), Ok("\u{E9}t\u{E9}")));
    let read = place.optional_text(1, "name", HUNDRED);
    assert!(rt; matches!(read, Ok(Some("\u{E9}t\u{E9}"))));
    Ok(())
}

/// The same with these limits of a list's numbers.
fn numbers(alloc: Global, value: &Value, high: i32, highest: u16) -> Result<Vec<u16>, SiteFault> {
    let count = Limits { low: 0, high };
    numbers_of(alloc, ListLimits { count, highest }, at(8), value)
}

#[test]
fn lists_of_numbers(rt: HostRuntime) -> Result<(), Fail> {
    let alloc = rt.alloc();
    let table = toml::table_from_slice(alloc, DOCUMENT.as_bytes())?;
    let list = place(&table).required(8, "numbers")?;
    assert_eq!(rt;
        integers_of(alloc, at(8), list)?.as_slice(),
        [7, 0, 4095].as_slice()
    );
    assert_eq!(rt;
        numbers(alloc, list, 3, 4095)?.as_slice(),
        [7, 0, 4095].as_slice()
    );
    assert!(rt; matches!(numbers(alloc, list, 2, 4095), Err(SiteFault::Range(_, 3))));
    assert!(rt;
        matches!(
            numbers(alloc, list, 3, 4094),
            Err(SiteFault::Range(_, 4095))
        )
    );
    let mixed = place(&table).required(8, "pairs")?;
    assert!(rt; matches!(numbers(alloc, mixed, 1, 0), Err(SiteFault::Kind(_))));
    Ok(())
}

#[test]
fn lists_of_pairs(rt: HostRuntime) -> Result<(), Fail> {
    let alloc = rt.alloc();
    let table = toml::table_from_slice(alloc, DOCUMENT.as_bytes())?;
    let place = place(&table);
    let limits = PairLimits {
        count: FEW,
        number: HUNDRED,
        units: 512,
    };
    let pairs = place.pairs(alloc, 9, "pairs", limits)?;
    assert_eq!(rt;
        pairs.as_slice(),
        [(512, -1024), (51_200, -51_200)].as_slice()
    );
    assert!(rt; place.optional_pairs(alloc, 9, "none", limits)?.is_none());
    assert!(rt;
        matches!(
            place.pairs(alloc, 9, "numbers", limits),
            Err(SiteFault::Kind(_))
        )
    );
    Ok(())
}

/// Reads the switch of an entry.
#[derive(Clone, Copy)]
struct Switch;

impl ReadEntry for Switch {
    type Entry = bool;

    ghost use Rattle.std.specs.Prelude.{codes};
    ghost use Rattle.site_fields.specs.Kinds.{boolean};

    ghost reading = { λ _ at. boolean 12 (codes "on") at };

    ghost IsRead = { λ _ _. Unit {0} };

    fn read(&self, _alloc: Global, at: &Place) -> Result<bool, SiteFault> {
        at.boolean(12, "on")
    }
}

/// The fault of the entries of this text.
fn expect_fault(rt: &impl Abort, alloc: Global, text: &str, fault: SiteFault) -> Result<(), Fail> {
    let table = toml::table_from_slice(alloc, text.as_bytes())?;
    let tables = place(&table).tables(alloc, 10, "entry", FEW)?;
    match entries_of(alloc, 11, "name", &Switch, &tables) {
        Ok(_) => panic!(rt; "accepted in place of {fault:?}: {text}"),
        Err(found) => assert_eq!(rt; found, fault, "{text}"),
    }
    Ok(())
}

#[test]
fn entries_by_their_names(rt: HostRuntime) -> Result<(), Fail> {
    let alloc = rt.alloc();
    let text = "name = \"b\"
        entry = [{ name = \"a\", on = true }, { name = \"b\", on = false }]";
    let table = toml::table_from_slice(alloc, text.as_bytes())?;
    let tables = place(&table).optional_tables(alloc, 10, "entry", FEW_OR_NONE)?;
    let entries = entries_of(alloc, 11, "name", &Switch, &tables)?;
    assert_eq!(rt; entries.list.as_slice(), [true, false].as_slice());
    assert_eq!(rt;
        place(&table).named_entry(13, "name", &entries.names),
        Ok(1)
    );
    let none = Names::new(alloc);
    assert_eq!(rt;
        place(&table).named_entry(13, "name", &none),
        Err(SiteFault::NoSuchName(at(13)))
    );
    assert!(rt;
        place(&table)
            .optional_tables(alloc, 10, "none", FEW)?
            .is_empty()
    );
    Ok(())
}

#[test]
fn faults_of_entries(rt: HostRuntime) -> Result<(), Fail> {
    let of = |number, entry| Field { number, entry };
    let twice = "entry = [{ name = \"a\", on = true }, { name = \"a\", on = 1 }]";
    expect_fault(&rt, rt.alloc(), twice, SiteFault::Twice(of(11, 1), 0))?;
    let first = "entry = [{ name = \"a\" }, { name = \"a\" }]";
    expect_fault(&rt, rt.alloc(), first, SiteFault::Missing(of(12, 0)))?;
    let unnamed = "entry = [{ name = \"\" }]";
    expect_fault(&rt, rt.alloc(), unnamed, SiteFault::Range(of(11, 0), 0))
}
