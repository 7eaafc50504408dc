//! Choices from their texts and back.
use crate::tests::naming::{declare_two, with_options};
use crate::tests::printing::come_to;
use cov_base::{Choice, OptionId, Text};
use cov_expr::{BindFault, Options, Partial, RawChoice, print_choice};
use std::alloc::Global;
use std::process::Abort;
use std::test::Fail;

// The values of two options as bits, of which the lowest is the first option's, each with the text of that choice.
const PRINTED: [(u128, &str); 3] = [(0, "a=off,b=off"), (1, "a=on,b=off"), (2, "a=off,b=on")];

// Texts, each with the name that is unknown or that of the option that is repeated, the empty text where there is none.
const FAULTY: [(&str, &str); 4] = [
    ("-", ""),
    ("b=on,a=off", ""),
    ("a=on,a=on,x=on,y=on", "x"),
    ("a=on,b=on,b=off,a=off", "b"),
];

const NO_CHOICES: [&str; 11] = [
    "",
    "a",
    "a=",
    "=on",
    "a=on,",
    ",a=on",
    "a=on,,b=on",
    "a=yes",
    "9=on",
    "a=on b=on",
    "--",
];

fn printed(alloc: Global, options: &Options, bits: u128) -> Result<Text, Fail> {
    if bits >= 4 || options.count() != 2 {
        return Err(Fail::from("no choice of two options"));
    }
    Ok(print_choice(alloc, options, Choice::new(bits, 2))?)
}

fn check_printed(rt: &impl Abort, alloc: Global, options: &mut Options) -> Result<(), Fail> {
    declare_two(alloc, options)?;
    for (bits, wanted) in &PRINTED {
        let text = printed(alloc, options, *bits)?;
        assert!(rt; text.as_slice() == wanted.as_bytes(), "for {wanted}");
    }
    Ok(())
}

#[test]
fn texts_of_choices(rt: HostRuntime) -> Result<(), Fail> {
    with_options(
        rt.alloc(),
        |options| check_printed(&rt, rt.alloc(), options),
    )
}

// The name that a fault tells.
fn told_name(alloc: Global, options: &Options, fault: BindFault) -> Result<Text, Fail> {
    match fault {
        BindFault::UnknownOption { name } => Ok(name),
        BindFault::Repeated { option } if option.number() < options.count() => {
            Ok(Text::from_slice(alloc, options.name(option))?)
        }
        _ => Err(Fail::from("no memory")),
    }
}

fn faulty_name(alloc: Global, options: &Options, text: &str) -> Result<Text, Fail> {
    let raw = RawChoice::parse(alloc, text.as_bytes())?;
    let bound = raw.bind(alloc, options);
    drop(raw);
    match bound {
        Ok(partial) => {
            drop(partial);
            Ok(Text::new(alloc))
        }
        Err(fault) => told_name(alloc, options, fault),
    }
}

fn check_texts(rt: &impl Abort, alloc: Global, options: &mut Options) -> Result<(), Fail> {
    declare_two(alloc, options)?;
    come_to(rt, &FAULTY, |text| faulty_name(alloc, options, text))
}

fn is_no_choice(rt: &impl Abort, alloc: Global, text: &str) {
    let parsed = RawChoice::parse(alloc, text.as_bytes());
    let refused = parsed.is_err();
    drop(parsed);
    assert!(rt; refused, "of {text}");
}

#[test]
fn texts_of_no_choice(rt: HostRuntime) -> Result<(), Fail> {
    for text in &NO_CHOICES {
        is_no_choice(&rt, rt.alloc(), text);
    }
    Ok(())
}

#[test]
fn choices_by_their_texts(rt: HostRuntime) -> Result<(), Fail> {
    with_options(rt.alloc(), |options| check_texts(&rt, rt.alloc(), options))
}

fn has_value(partial: &Partial, option: OptionId, on: bool) -> bool {
    match partial.get(option) {
        Some(value) => value == on,
        None => false,
    }
}

// A partial choice that turns the first of two options on and the second off.
fn is_on_and_off(rt: &impl Abort, partial: &Partial) {
    assert!(rt; has_value(partial, OptionId::new(0), true));
    assert!(rt; has_value(partial, OptionId::new(1), false));
    assert!(rt; partial.get(OptionId::new(2)).is_none());
}

fn check_bound(
    rt: &impl Abort,
    alloc: Global,
    options: &Options,
    raw: &RawChoice,
) -> Result<(), Fail> {
    let partial = raw.bind(alloc, options)?;
    is_on_and_off(rt, &partial);
    drop(partial);
    Ok(())
}

fn check_partial(rt: &impl Abort, alloc: Global, options: &mut Options) -> Result<(), Fail> {
    declare_two(alloc, options)?;
    let raw = RawChoice::parse(alloc, b"b=off,a=on")?;
    let checked = check_bound(rt, alloc, options, &raw);
    drop(raw);
    checked
}

#[test]
fn partial_choices_by_option(rt: HostRuntime) -> Result<(), Fail> {
    with_options(
        rt.alloc(),
        |options| check_partial(&rt, rt.alloc(), options),
    )
}

#[test]
fn a_full_choice_as_a_partial_one(rt: HostRuntime) -> Result<(), Fail> {
    let partial = Partial::of(rt.alloc(), Choice::new(1, 2))?;
    is_on_and_off(&rt, &partial);
    drop(partial);
    Ok(())
}
