// Texts at the bounds of length, brackets and parts, built by code.
use rule::Rule;
use scale::{Reading, ScaleFault};
use std::alloc::AllocError;
use std::test::Fail;
use text::TextFault;

fn add_times(text: &mut Vec<u8>, piece: &[u8], times: usize) -> Result<(), AllocError> {
    for _ in 0..times {
        text.extend_from_slice(piece)?;
    }
    Ok(())
}

// So many brackets, one inside the other, around `inner`.
fn add_nest(text: &mut Vec<u8>, brackets: usize, inner: &[u8]) -> Result<(), AllocError> {
    add_times(text, b"X(", brackets)?;
    text.extend_from_slice(inner)?;
    add_times(text, b")", brackets)
}

// So many `&` one after the other, with a comparison before each, and `last` at the end.
fn add_chain(text: &mut Vec<u8>, operators: usize, last: &[u8]) -> Result<(), AllocError> {
    add_times(text, b"(c0<p)&(", operators)?;
    text.extend_from_slice(last)?;
    add_times(text, b")", operators)
}

#[test]
fn lengths(rt: HostRuntime) -> Result<(), Fail> {
    let mut rule = Rule::new(rt.alloc())?;
    assert_eq!(rt; rule.read::<Reading>(b""), Err(TextFault::Length));
    let mut text = Vec::new(rt.alloc());
    text.extend_from_slice(b"c0<")?;
    add_times(&mut text, b"1", 509)?;
    let unread = TextFault::Scale(ScaleFault::Unread { place: 3 });
    assert_eq!(rt; rule.read::<Reading>(text.as_slice()), Err(unread));
    text.extend_from_slice(b"1")?;
    assert_eq!(rt;
        rule.read::<Reading>(text.as_slice()),
        Err(TextFault::Length)
    );
    assert!(rt; rule.is_blank());
    Ok(())
}

#[test]
fn brackets(rt: HostRuntime) -> Result<(), Fail> {
    let mut rule = Rule::new(rt.alloc())?;
    let mut text = Vec::new(rt.alloc());
    add_nest(&mut text, 12, b"c0<p")?;
    assert_eq!(rt; rule.read::<Reading>(text.as_slice()), Ok(()));
    assert_eq!(rt; rule.formula().len(), 13);
    text.clear();
    add_nest(&mut text, 13, b"c0<p")?;
    assert_eq!(rt;
        rule.read::<Reading>(text.as_slice()),
        Err(TextFault::Brackets { place: 25 })
    );
    text.clear();
    add_nest(&mut text, 12, b"X)")?;
    assert_eq!(rt;
        rule.read::<Reading>(text.as_slice()),
        Err(TextFault::Form { place: 25 })
    );
    assert_eq!(rt; rule.formula().len(), 13);
    Ok(())
}

#[test]
fn parts(rt: HostRuntime) -> Result<(), Fail> {
    let mut rule = Rule::new(rt.alloc())?;
    let mut text = Vec::new(rt.alloc());
    text.extend_from_slice(b"X(")?;
    add_chain(&mut text, 11, b"c0<p")?;
    text.extend_from_slice(b")")?;
    assert_eq!(rt; rule.read::<Reading>(text.as_slice()), Ok(()));
    assert_eq!(rt; rule.formula().len(), 24);
    text.clear();
    add_chain(&mut text, 12, b"c0<p")?;
    assert_eq!(rt;
        rule.read::<Reading>(text.as_slice()),
        Err(TextFault::Parts { place: 96 })
    );
    text.clear();
    add_chain(&mut text, 12, b"z")?;
    assert_eq!(rt;
        rule.read::<Reading>(text.as_slice()),
        Err(TextFault::Form { place: 96 })
    );
    text.clear();
    text.extend_from_slice(b"X(")?;
    add_chain(&mut text, 12, b"c0<p")?;
    assert_eq!(rt;
        rule.read::<Reading>(text.as_slice()),
        Err(TextFault::Brackets { place: 90 })
    );
    Ok(())
}

#[test]
fn last_part_is_an_arrow(rt: HostRuntime) -> Result<(), Fail> {
    let mut rule = Rule::new(rt.alloc())?;
    let mut text = Vec::new(rt.alloc());
    text.extend_from_slice(b"(X((")?;
    add_chain(&mut text, 5, b"c0<p")?;
    text.extend_from_slice(b")&(")?;
    add_chain(&mut text, 5, b"c0<p")?;
    text.extend_from_slice(b")))=p")?;
    assert_eq!(rt;
        rule.read::<Reading>(text.as_slice()),
        Err(TextFault::Parts { place: 108 })
    );
    Ok(())
}
