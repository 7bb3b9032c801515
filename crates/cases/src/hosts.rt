// The call for hosts: sheets, refusals and the room that a sheet needs.
use crate::makers::{rising, three_points};
use host::{stop_limits, stop_limits_refusal};
use std::alloc::Global;
use std::test::Fail;

struct Sheet {
    rule: &'static str,
    point: u64,
    listing: &'static str,
}

const SHEETS: [Sheet; 10] = [
    Sheet {
        rule: "F(c0>=p)",
        point: 0,
        listing: "boxes 1\np<=7\n",
    },
    Sheet {
        rule: "G((c0<=p)&(c0>=q))",
        point: 0,
        listing: "boxes 1\np>=7,q<=3\n",
    },
    Sheet {
        rule: "(c0<=p)U(c1>=1)",
        point: 0,
        listing: "boxes 1\np>=7\n",
    },
    Sheet {
        rule: "(c0>=p)W(c1>=1)",
        point: 0,
        listing: "boxes 1\np<=3\n",
    },
    Sheet {
        rule: "!((c0>=p)W(c1>=1))",
        point: 0,
        listing: "boxes 1\np>3\n",
    },
    Sheet {
        rule: "(c1>p)&(c2<p)",
        point: 2,
        listing: "boxes 1\np>0,p<1\n",
    },
    Sheet {
        rule: "(c0<p)|(c0>q)",
        point: 0,
        listing: "boxes 2\np>3\nq<3\n",
    },
    Sheet {
        rule: "X(c0>=p)",
        point: 2,
        listing: "boxes 1\np<=5\n",
    },
    Sheet {
        rule: "c0<9",
        point: 0,
        listing: "boxes 1\nany\n",
    },
    Sheet {
        rule: "c0>9",
        point: 0,
        listing: "boxes 0\n",
    },
];

struct Refusal {
    rule: &'static str,
    point: u64,
    number: i64,
}

const REFUSALS: [Refusal; 9] = [
    Refusal {
        rule: "",
        point: 0,
        number: 1,
    },
    Refusal {
        rule: "c0<",
        point: 0,
        number: 2,
    },
    Refusal {
        rule: "X(X(X(X(X(X(X(X(X(X(X(X(X(c0<p)))))))))))))",
        point: 0,
        number: 3,
    },
    Refusal {
        rule: "c0<off",
        point: 0,
        number: 5,
    },
    Refusal {
        rule: "c4<p",
        point: 0,
        number: 6,
    },
    Refusal {
        rule: "c0<c15",
        point: 0,
        number: 6,
    },
    Refusal {
        rule: "c0<p",
        point: 3,
        number: 8,
    },
    Refusal {
        rule: "c0<p",
        point: 18446744073709551615,
        number: 8,
    },
    Refusal {
        rule: "c0<off",
        point: 9,
        number: 5,
    },
];

// What the call answers with room to spare.
fn answer(heap: Global, rule: &str, records: &[u8], point: u64) -> i64 {
    let mut output = [7u8; 4096];
    stop_limits(heap, rule.as_bytes(), records, point, &mut output)
}

#[test]
fn sheets(rt: HostRuntime) -> Result<(), Fail> {
    let records = three_points(rt.alloc())?;
    for sheet in SHEETS.iter() {
        let mut output = [7u8; 64];
        let expected = sheet.listing.as_bytes();
        let length = stop_limits(
            rt.alloc(),
            sheet.rule.as_bytes(),
            records.as_slice(),
            sheet.point,
            &mut output,
        );
        assert!(rt; length >= 0 && length <= 63);
        let written = length as usize;
        assert!(rt; &output[0..written] == expected, "{}", sheet.rule);
        assert_eq!(rt; output[written], 7, "{}", sheet.rule);
    }
    Ok(())
}

#[test]
fn refusals(rt: HostRuntime) -> Result<(), Fail> {
    let records = three_points(rt.alloc())?;
    for refusal in REFUSALS.iter() {
        let got = answer(rt.alloc(), refusal.rule, records.as_slice(), refusal.point);
        assert!(rt; got == 0 - refusal.number, "{}", refusal.rule);
    }
    Ok(())
}

#[test]
fn records_are_checked_after_the_text(rt: HostRuntime) -> Result<(), Fail> {
    let heap = rt.alloc();
    let records = three_points(heap)?;
    let ragged = [0u8; 19];
    assert_eq!(rt; answer(heap, "c0<p", &ragged, 0), -15);
    assert_eq!(rt; answer(heap, "c0<", &ragged, 0), -2);
    assert_eq!(rt; answer(heap, "c9<p", &ragged, 0), -15);
    assert_eq!(rt; answer(heap, "c0<p", &[], 0), -8);
    let many = rising(heap, 2049)?;
    assert_eq!(rt; answer(heap, "c0<p", many.as_slice(), 0), -10);
    let mut twice = three_points(heap)?;
    twice.extend_from_slice(records.as_slice())?;
    assert_eq!(rt; answer(heap, "c0<p", twice.as_slice(), 0), -11);
    Ok(())
}

#[test]
fn too_many_boxes(rt: HostRuntime) -> Result<(), Fail> {
    let heap = rt.alloc();
    let records = rising(heap, 33)?;
    let rule = "F((c0>=p)&(c0<=p))";
    assert_eq!(rt; answer(heap, rule, records.as_slice(), 0), -14);
    assert!(rt; answer(heap, rule, records.as_slice(), 1) > 0);
    Ok(())
}

#[test]
fn room(rt: HostRuntime) -> Result<(), Fail> {
    let heap = rt.alloc();
    let records = three_points(heap)?;
    let rule = b"F(c0>=p)";
    let mut short = [7u8; 12];
    assert_eq!(rt;
        stop_limits(heap, rule, records.as_slice(), 0, &mut short),
        -16
    );
    assert!(rt; short == [7u8; 12]);
    let mut exact = [7u8; 13];
    assert_eq!(rt;
        stop_limits(heap, rule, records.as_slice(), 0, &mut exact),
        13
    );
    assert!(rt; &exact == b"boxes 1\np<=7\n");
    Ok(())
}

#[test]
fn refusal_texts(rt: HostRuntime) {
    let mut short = [7u8; 10];
    assert_eq!(rt; stop_limits_refusal(14, &mut short), -16);
    assert!(rt; short == [7u8; 10]);
    let mut exact = [7u8; 11];
    assert_eq!(rt; stop_limits_refusal(14, &mut exact), 11);
    assert!(rt; &exact == b"refused 14\n");
    let mut long = [7u8; 12];
    assert_eq!(rt; stop_limits_refusal(5, &mut long), 10);
    assert!(rt; &long == b"refused 5\n\x07\x07");
}
