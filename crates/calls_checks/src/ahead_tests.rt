use ahead::ahead::Ahead;
use ahead::given::Given;
use belt::belt::Belt;
use calls::call_line::CallLine;
use faults::fault::Fault;
use faults::layer::Layer;
use faults::reason::Reason;
use names::name::Name;
use std::test::Fail;

const TEXT: &[u8] = b"call task value\narrive split 2\nquiet all 3\nbusy all\nquiet all 4\n";

// What that text gives: its last line stands below one that is refused.
fn expected() -> Option<[Given; 3]> {
    let task = Name::new(b"split")?;
    Some([
        Given::Call(CallLine::Arrive { task, times: 2 }),
        Given::Call(CallLine::Quiet { ticks: 3 }),
        Given::Fault(Layer::Reader.refuses(Reason::FieldCount, 4, 0)),
    ])
}

#[test]
fn cut_in_two(rt: HostRuntime) -> Result<(), Fail> {
    for at in 0..=TEXT.len() {
        let mut ahead = Ahead::new(rt.alloc())?;
        let mut slots = [None; 4];
        let mut belt = Belt::new(&mut slots);
        let (front, back) = TEXT.split_at(at);
        let _ = ahead.take(front, &mut belt)?;
        let _ = ahead.take(back, &mut belt)?;
        for given in expected().ok_or("name")? {
            assert_eq!(rt; belt.take(), Some(given), "cut at {at}");
        }
        assert_eq!(rt; belt.take(), None);
        assert_eq!(rt; ahead.end(), Ok(()));
    }
    Ok(())
}

#[test]
fn byte_by_byte_over_one_slot(rt: HostRuntime) -> Result<(), Fail> {
    let mut ahead = Ahead::new(rt.alloc())?;
    let mut slots = [None; 1];
    let mut belt = Belt::new(&mut slots);
    let mut given = Vec::new(rt.alloc());
    for byte in TEXT {
        let _ = ahead.take(&[*byte], &mut belt)?;
        if let Some(next) = belt.take() {
            given.push(next)?;
        }
    }
    assert_eq!(rt; given.as_slice(), expected().ok_or("name")?.as_slice());
    Ok(())
}

#[test]
fn stops_where_the_belt_is_full(rt: HostRuntime) -> Result<(), Fail> {
    let mut ahead = Ahead::new(rt.alloc())?;
    let mut slots = [None; 1];
    let mut belt = Belt::new(&mut slots);
    assert_eq!(rt; ahead.take(TEXT, &mut belt)?, 31);
    assert_eq!(rt; ahead.take(b"quiet all 3\n", &mut belt)?, 0);
    let [first, second, _] = expected().ok_or("name")?;
    assert_eq!(rt; belt.take(), Some(first));
    assert_eq!(rt; ahead.take(b"quiet all 3\nbusy", &mut belt)?, 12);
    assert_eq!(rt; belt.take(), Some(second));
    Ok(())
}

#[test]
fn ends(rt: HostRuntime) -> Result<(), Fail> {
    let texts: [(&[u8], Result<(), Fault>); 5] = [
        (b"", Err(Layer::Reader.refuses(Reason::Heading, 1, 0))),
        (
            b"call task",
            Err(Layer::Reader.refuses(Reason::ForeignByte, 1, 0)),
        ),
        (b"call task value\n", Ok(())),
        (b"call task value\nquiet all 3\n", Ok(())),
        (
            b"call task value\nquiet all 3",
            Err(Layer::Reader.refuses(Reason::ForeignByte, 2, 0)),
        ),
    ];
    for (text, end) in texts {
        let mut ahead = Ahead::new(rt.alloc())?;
        let mut slots = [None; 4];
        let mut belt = Belt::new(&mut slots);
        assert_eq!(rt; ahead.take(text, &mut belt)?, text.len());
        assert_eq!(rt; ahead.end(), end);
    }
    Ok(())
}
