use calls::call_line::CallLine;
use calls::call_word::{CallWord, UnknownCall};
use calls::lines::{call_in, heading_in};
use faults::fault::Fault;
use faults::layer::Layer;
use faults::reason::Reason;
use names::name::Name;
use sheet_lines::line::Line;
use std::test::Fail;

// A line at a place that no other test value has.
fn line(text: &[u8]) -> Line<'_> {
    Line { text, number: 7 }
}

// The reader's refusal of that line.
fn refused(reason: Reason, field: u32) -> Fault {
    Layer::Reader.refuses(reason, 7, field)
}

#[test]
fn words(rt: HostRuntime) {
    let words = [
        CallWord::Arrive,
        CallWord::Need,
        CallWord::Quiet,
        CallWord::Busy,
    ];
    for word in words {
        assert_eq!(rt; CallWord::try_from(word.word().as_bytes()), Ok(word));
    }
    let others: [&[u8]; 4] = [b"arrives", b"all", b"", b"Need"];
    for other in others {
        assert_eq!(rt; CallWord::try_from(other), Err(UnknownCall));
    }
}

#[test]
fn lines_of_calls(rt: HostRuntime) -> Result<(), Fail> {
    let split = Name::new(b"split").ok_or("name")?;
    let all = Name::new(b"all").ok_or("name")?;
    let calls: [(&[u8], CallLine); 6] = [
        (
            b"arrive split 1\n",
            CallLine::Arrive {
                task: split,
                times: 1,
            },
        ),
        (
            b"arrive all 0\n",
            CallLine::Arrive {
                task: all,
                times: 0,
            },
        ),
        (
            b"need split 999999999\n",
            CallLine::Need {
                task: split,
                ticks: 999_999_999,
            },
        ),
        (
            b"need split 0\n",
            CallLine::Need {
                task: split,
                ticks: 0,
            },
        ),
        (b"quiet all 0\n", CallLine::Quiet { ticks: 0 }),
        (b"busy all 27\n", CallLine::Busy { ticks: 27 }),
    ];
    for (text, call) in calls {
        assert_eq!(rt; call_in(line(text)), Ok(call));
    }
    Ok(())
}

#[test]
fn lines_refused(rt: HostRuntime) {
    let lines: [(&[u8], Reason, u8, u32); 18] = [
        (b"arrive split 1", Reason::ForeignByte, 2, 0),
        (b"arrive Split 1\n", Reason::ForeignByte, 2, 0),
        (b"arrive\tsplit 1\n", Reason::ForeignByte, 2, 0),
        (b"\n", Reason::Heading, 3, 0),
        (b" \n", Reason::FieldCount, 4, 0),
        (b"arrive split\n", Reason::FieldCount, 4, 0),
        (b"arrive split  1\n", Reason::FieldCount, 4, 0),
        (b"quiet all 1 2\n", Reason::FieldCount, 4, 0),
        (b"ring split 1\n", Reason::Word, 6, 1),
        (b"ring 9 x\n", Reason::Word, 6, 1),
        (b"arrive 9x 1\n", Reason::Word, 6, 2),
        (b"need abcdefghijklm 1\n", Reason::Word, 6, 2),
        (b"quiet split 1\n", Reason::Word, 6, 2),
        (b"busy 9 x\n", Reason::Word, 6, 2),
        (b"arrive all 01\n", Reason::NumberRange, 5, 3),
        (b"need split x\n", Reason::NumberRange, 5, 3),
        (b"quiet all 1000000000\n", Reason::NumberRange, 5, 3),
        (b"busy all all\n", Reason::NumberRange, 5, 3),
    ];
    for (text, reason, number, field) in lines {
        let told = call_in(line(text));
        assert_eq!(rt; told, Err(refused(reason, field)));
        assert_eq!(rt; told.map_err(|fault| fault.reason.number()), Err(number));
    }
}

#[test]
fn headings(rt: HostRuntime) {
    assert_eq!(rt; heading_in(line(b"call task value\n")), Ok(()));
    let others: [(&[u8], Reason); 5] = [
        (b"", Reason::Heading),
        (b"\n", Reason::Heading),
        (b"call task values\n", Reason::Heading),
        (b"call task value", Reason::ForeignByte),
        (b"call task value\r\n", Reason::ForeignByte),
    ];
    for (text, reason) in others {
        assert_eq!(rt; heading_in(line(text)), Err(refused(reason, 0)));
    }
}
