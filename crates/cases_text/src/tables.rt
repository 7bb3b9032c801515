// A table of short texts.
use rule::Rule;
use scale::Reading;
use std::test::Fail;

// A text that is read, with the number of its parts.
struct Taken {
    text: &'static str,
    parts: usize,
}

// A text that is refused, with the number and the place of the fault.
struct Refusal {
    text: &'static str,
    number: u32,
    place: usize,
}

const TAKEN: [Taken; 26] = [
    Taken {
        text: "c0<p",
        parts: 1,
    },
    Taken {
        text: "c15<c15",
        parts: 1,
    },
    Taken {
        text: "c0<-5",
        parts: 1,
    },
    Taken {
        text: "c0<0",
        parts: 1,
    },
    Taken {
        text: "c9>=q",
        parts: 1,
    },
    Taken {
        text: "c10<=r",
        parts: 1,
    },
    Taken {
        text: "c0>2147483647",
        parts: 1,
    },
    Taken {
        text: "c0>-2147483648",
        parts: 1,
    },
    Taken {
        text: "X(c0<p)",
        parts: 2,
    },
    Taken {
        text: "F(c0<p)",
        parts: 2,
    },
    Taken {
        text: "G(c0<p)",
        parts: 2,
    },
    Taken {
        text: "!(c0<p)",
        parts: 2,
    },
    Taken {
        text: "(c0<p)U(c1>q)",
        parts: 3,
    },
    Taken {
        text: "(c0<p)W(c1>q)",
        parts: 3,
    },
    Taken {
        text: "(c0<p)&(c1>q)",
        parts: 3,
    },
    Taken {
        text: "(c0<p)|(c1>q)",
        parts: 3,
    },
    Taken {
        text: "(c0<p)=>(c1>q)",
        parts: 3,
    },
    Taken {
        text: "G((c0<=p)&(c0>=q))",
        parts: 4,
    },
    Taken {
        text: "!((c0>=p)W(c1>=1))",
        parts: 4,
    },
    Taken {
        text: "(X(c0<p))=>(F(c1>c2))",
        parts: 5,
    },
    Taken {
        text: "c1<p",
        parts: 1,
    },
    Taken {
        text: "c15>=c0",
        parts: 1,
    },
    Taken {
        text: "X(X(X(c0<p)))",
        parts: 4,
    },
    Taken {
        text: "((c0<p)&(c1<q))|(c2>r)",
        parts: 5,
    },
    Taken {
        text: "(c0<p)U((c1>q)W(c2<=r))",
        parts: 5,
    },
    Taken {
        text: "c0<-1",
        parts: 1,
    },
];

const REFUSALS: [Refusal; 80] = [
    Refusal {
        text: "c",
        number: 2,
        place: 1,
    },
    Refusal {
        text: "c0",
        number: 2,
        place: 2,
    },
    Refusal {
        text: "c0<",
        number: 2,
        place: 3,
    },
    Refusal {
        text: "c1<",
        number: 2,
        place: 3,
    },
    Refusal {
        text: "c0<=",
        number: 2,
        place: 4,
    },
    Refusal {
        text: "c16<p",
        number: 2,
        place: 2,
    },
    Refusal {
        text: "c01<p",
        number: 2,
        place: 2,
    },
    Refusal {
        text: "c20<p",
        number: 2,
        place: 2,
    },
    Refusal {
        text: "c100<p",
        number: 2,
        place: 3,
    },
    Refusal {
        text: "c0=p",
        number: 2,
        place: 2,
    },
    Refusal {
        text: "c0<P",
        number: 2,
        place: 3,
    },
    Refusal {
        text: "c0<>p",
        number: 2,
        place: 3,
    },
    Refusal {
        text: "c0<==p",
        number: 2,
        place: 4,
    },
    Refusal {
        text: "c0<)",
        number: 2,
        place: 3,
    },
    Refusal {
        text: " c0<p",
        number: 2,
        place: 0,
    },
    Refusal {
        text: "C0<p",
        number: 2,
        place: 0,
    },
    Refusal {
        text: "p<c0",
        number: 2,
        place: 0,
    },
    Refusal {
        text: "c1 <p",
        number: 2,
        place: 2,
    },
    Refusal {
        text: "c0<p)",
        number: 2,
        place: 4,
    },
    Refusal {
        text: "X(c0<p))",
        number: 2,
        place: 7,
    },
    Refusal {
        text: "X(c0<p)c",
        number: 2,
        place: 7,
    },
    Refusal {
        text: "c0<p&c0<q",
        number: 2,
        place: 4,
    },
    Refusal {
        text: "X",
        number: 2,
        place: 1,
    },
    Refusal {
        text: "X(",
        number: 2,
        place: 2,
    },
    Refusal {
        text: "X()",
        number: 2,
        place: 2,
    },
    Refusal {
        text: "()",
        number: 2,
        place: 1,
    },
    Refusal {
        text: "Xc0<p)",
        number: 2,
        place: 1,
    },
    Refusal {
        text: "X(c0<p",
        number: 2,
        place: 6,
    },
    Refusal {
        text: "(c0<p&(c0<p)",
        number: 2,
        place: 5,
    },
    Refusal {
        text: "(c0<p)&c0<p)",
        number: 2,
        place: 7,
    },
    Refusal {
        text: "(c0<p)&(c0<p",
        number: 2,
        place: 12,
    },
    Refusal {
        text: "(c0<p)",
        number: 2,
        place: 6,
    },
    Refusal {
        text: "((c0<p))",
        number: 2,
        place: 7,
    },
    Refusal {
        text: "(c0<p)=(c0<p)",
        number: 2,
        place: 7,
    },
    Refusal {
        text: "(c0<p)=",
        number: 2,
        place: 7,
    },
    Refusal {
        text: "(c0<p)>(c0<p)",
        number: 2,
        place: 6,
    },
    Refusal {
        text: "(c0<p)X(c0<p)",
        number: 2,
        place: 6,
    },
    Refusal {
        text: "(c0<p)&&(c0<p)",
        number: 2,
        place: 7,
    },
    Refusal {
        text: "c0<c16",
        number: 5,
        place: 3,
    },
    Refusal {
        text: "c0<c01",
        number: 5,
        place: 3,
    },
    Refusal {
        text: "c0<c",
        number: 5,
        place: 3,
    },
    Refusal {
        text: "c0<pp",
        number: 5,
        place: 3,
    },
    Refusal {
        text: "c0<-",
        number: 5,
        place: 3,
    },
    Refusal {
        text: "c0<-0",
        number: 5,
        place: 3,
    },
    Refusal {
        text: "c0<007",
        number: 5,
        place: 3,
    },
    Refusal {
        text: "c0<2147483648",
        number: 5,
        place: 3,
    },
    Refusal {
        text: "c0<-2147483649",
        number: 5,
        place: 3,
    },
    Refusal {
        text: "c0<=off",
        number: 5,
        place: 4,
    },
    Refusal {
        text: "(c0<p)&(c0<zz)",
        number: 5,
        place: 11,
    },
    Refusal {
        text: "(c0<zz)&(c0<yy)",
        number: 5,
        place: 4,
    },
    Refusal {
        text: "c0<pp)",
        number: 5,
        place: 3,
    },
    Refusal {
        text: "(c0<zz)&(c0<P)",
        number: 5,
        place: 4,
    },
    Refusal {
        text: "!(c0<zz",
        number: 5,
        place: 5,
    },
    Refusal {
        text: "c16<zz",
        number: 2,
        place: 2,
    },
    Refusal {
        text: "(c0<p)(c0<zz)",
        number: 2,
        place: 6,
    },
    Refusal {
        text: "c1",
        number: 2,
        place: 2,
    },
    Refusal {
        text: "c15",
        number: 2,
        place: 3,
    },
    Refusal {
        text: "c150<p",
        number: 2,
        place: 3,
    },
    Refusal {
        text: "c00<p",
        number: 2,
        place: 2,
    },
    Refusal {
        text: "c0<p ",
        number: 2,
        place: 4,
    },
    Refusal {
        text: "c0<p=",
        number: 2,
        place: 4,
    },
    Refusal {
        text: "c0>=",
        number: 2,
        place: 4,
    },
    Refusal {
        text: "c0>=<p",
        number: 2,
        place: 4,
    },
    Refusal {
        text: "c0=<p",
        number: 2,
        place: 2,
    },
    Refusal {
        text: "F",
        number: 2,
        place: 1,
    },
    Refusal {
        text: "!c0<p",
        number: 2,
        place: 1,
    },
    Refusal {
        text: "!()",
        number: 2,
        place: 2,
    },
    Refusal {
        text: "((",
        number: 2,
        place: 2,
    },
    Refusal {
        text: "(c0",
        number: 2,
        place: 3,
    },
    Refusal {
        text: "(c0<p))&(c0<p)",
        number: 2,
        place: 6,
    },
    Refusal {
        text: "(c0<p)=>c0<p",
        number: 2,
        place: 8,
    },
    Refusal {
        text: "(c0<p)=>(c0<p",
        number: 2,
        place: 13,
    },
    Refusal {
        text: "(c0<p)=>",
        number: 2,
        place: 8,
    },
    Refusal {
        text: "(c0<p)U(c0<q)U(c0<r)",
        number: 2,
        place: 13,
    },
    Refusal {
        text: "(c0<p)=>zz",
        number: 2,
        place: 8,
    },
    Refusal {
        text: "(c0<p)=zz",
        number: 2,
        place: 7,
    },
    Refusal {
        text: "(c0<zz)=(c0<p)",
        number: 5,
        place: 4,
    },
    Refusal {
        text: "X(c0<zz)X",
        number: 5,
        place: 5,
    },
    Refusal {
        text: "c0<c1c",
        number: 5,
        place: 3,
    },
    Refusal {
        text: "c-1<p",
        number: 2,
        place: 1,
    },
];

#[test]
fn texts_are_taken(rt: HostRuntime) -> Result<(), Fail> {
    let mut rule = Rule::new(rt.alloc())?;
    assert!(rt; rule.is_blank());
    for case in &TAKEN {
        assert!(rt;
            rule.read::<Reading>(case.text.as_bytes()).is_ok(),
            "{}",
            case.text
        );
        assert_eq!(rt; rule.formula().len(), case.parts, "{}", case.text);
    }
    Ok(())
}

#[test]
fn texts_are_refused(rt: HostRuntime) -> Result<(), Fail> {
    let mut rule = Rule::new(rt.alloc())?;
    assert!(rt; rule.read::<Reading>(b"X(c0<p)").is_ok());
    for case in &REFUSALS {
        match rule.read::<Reading>(case.text.as_bytes()) {
            Ok(()) => return Err(Fail::new(case.text)),
            Err(fault) => {
                assert_eq!(rt; fault.number(), case.number, "{}", case.text);
                assert_eq!(rt; fault.place(), Some(case.place), "{}", case.text);
            }
        }
        assert_eq!(rt; rule.formula().len(), 2, "{}", case.text);
    }
    Ok(())
}
