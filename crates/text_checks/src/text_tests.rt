use cells::cell::{kind_in, name_in, number_in};
use cells::line::{is_parted, is_well};
use faults::fault::Fault;
use faults::layer::Layer;
use faults::reason::Reason;
use kinds::kind::Kind;
use lexer::fields::Fields;
use lexer::lines::Lines;
use lexer::token::{Shape, Token};

// A word at a place that no other test value has.
fn token(part: &[u8]) -> Token<'_> {
    Token {
        shape: Shape::Word,
        part,
        line: 5,
        field: 2,
    }
}

// The reader's refusal of that token.
fn refused(reason: Reason) -> Fault {
    Layer::Reader.refuses(reason, 5, 2)
}

#[test]
fn tokens_of_a_sheet(rt: HostRuntime) {
    let mut lines = Lines::new(b"goal\n32 x9\nend");
    assert_eq!(rt; lines.next(), Some(b"goal\n".as_slice()));
    let mut fields = Fields::new(lines.next().unwrap_or(b""), 2);
    let expected: [(Shape, &[u8], u32); 4] = [
        (Shape::Number, b"32", 1),
        (Shape::Word, b"x9", 2),
        (Shape::LineEnd, b"", 0),
        (Shape::LineEnd, b"", 0),
    ];
    for (shape, part, field) in expected {
        let token = Token {
            shape,
            part,
            line: 2,
            field,
        };
        assert_eq!(rt; fields.next(), token);
    }
    assert!(rt; !lines.is_done());
    assert_eq!(rt; lines.next(), Some(b"end".as_slice()));
    assert!(rt; lines.is_done());
    assert_eq!(rt; lines.next(), None);
    assert_eq!(rt; lines.next(), None);
}

#[test]
fn numbers(rt: HostRuntime) {
    let good: [(&[u8], u64, u64, u64); 3] = [
        (b"65535", 1, 65_535, 65_535),
        (b"0", 0, 1, 0),
        (b"999999999", 1, 999_999_999, 999_999_999),
    ];
    for (part, low, high, number) in good {
        assert_eq!(rt; number_in(token(part), low, high), Ok(number));
    }
    let bad: [&[u8]; 6] = [b"65536", b"0", b"07", b"1234567890", b"", b"1a"];
    for part in bad {
        let told = number_in(token(part), 1, 65_535);
        assert_eq!(rt; told, Err(refused(Reason::NumberRange)));
        assert_eq!(rt; told.map_err(|fault| fault.reason.number()), Err(5));
    }
}

#[test]
fn names_and_kinds(rt: HostRuntime) {
    assert_eq!(rt;
        name_in(token(b"abcdefghijk9")),
        Ok(b"abcdefghijk9".as_slice())
    );
    let bad: [&[u8]; 4] = [b"abcdefghijklm", b"9a", b"", b"a_b"];
    for part in bad {
        let told = name_in(token(part));
        assert_eq!(rt; told, Err(refused(Reason::Word)));
        assert_eq!(rt; told.map_err(|fault| fault.reason.number()), Err(6));
    }
    let kinds: [(&[u8], Result<Kind, Fault>); 4] = [
        (b"own", Ok(Kind::Own)),
        (b"fixed", Ok(Kind::Fixed)),
        (b"float", Ok(Kind::Float)),
        (b"owns", Err(refused(Reason::Word))),
    ];
    for (part, kind) in kinds {
        assert_eq!(rt; kind_in(token(part)), kind);
    }
    let told = kind_in(token(b"owns"));
    assert_eq!(rt; told.map_err(|fault| fault.reason.number()), Err(6));
}

#[test]
fn lines_by_shape(rt: HostRuntime) {
    let wells: [(&[u8], bool); 6] = [
        (b"a 1\n", true),
        (b"\n", true),
        (b"a 1", false),
        (b"A\n", false),
        (b"a\nb\n", false),
        (b"", false),
    ];
    for (line, is) in wells {
        assert_eq!(rt; is_well(line), is);
    }
    let parted: [(&[u8], usize, bool); 6] = [
        (b"a 1\n", 2, true),
        (b"a\n", 1, true),
        (b"a  1\n", 2, false),
        (b" a\n", 1, false),
        (b"a \n", 1, false),
        (b"a 1\n", 1, false),
    ];
    for (line, fields, is) in parted {
        assert_eq!(rt; is_parted(line, fields), is);
    }
}
