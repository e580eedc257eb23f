//! Files of inputs over a network of two switches, and what they are read as.
use driver_input::{Input, InputFault, InputLine, Inputs, read_input};
use std::alloc::Global;
use std::process::Abort;
use topology::Net;
use topology_files::read_net;

const NETWORK: &[u8] =
    br#"{"switches":[{"name":"s1","capacity":8},{"name":"s2","capacity":8}],"links":[["s1:2","s2:2"]],"hosts":["s1:1","s2:1"],"vlans":["untagged"],"tags":[3000,3009]}"#;

fn network(rt: &impl Abort, alloc: Global) -> Net {
    read_net(alloc, NETWORK).ok().expect(rt, "a network")
}

/// An input, spelled otherwise than in a file.
fn add_input(rt: &impl Abort, text: &mut Vec<u8>, line: &InputLine) {
    text.push((line.line % 256) as u8).expect(rt, "memory");
    match &line.input {
        Input::Start => text.extend_from_slice(b" start;").expect(rt, "memory"),
        Input::Feed(switch, piece) => {
            let front = [b' ', (switch.0 % 256) as u8, b' '];
            text.extend_from_slice(&front).expect(rt, "memory");
            text.extend_from_slice(piece.bytes()).expect(rt, "memory");
            text.push(b';').expect(rt, "memory");
        }
    }
}

fn inputs_text(rt: &impl Abort, alloc: Global, inputs: &Inputs) -> Vec<u8> {
    let mut text = Vec::new(alloc);
    for line in inputs.list() {
        add_input(rt, &mut text, line);
    }
    text
}

/// What a file is read as: its inputs, or its refusal.
fn answer(rt: &impl Abort, alloc: Global, file: &[u8]) -> Result<Vec<u8>, InputFault> {
    let inputs = read_input(alloc, &network(rt, alloc), file)?;
    Ok(inputs_text(rt, alloc, &inputs))
}

#[test]
fn inputs_are_read_with_their_lines(rt: HostRuntime) {
    let alloc = rt.alloc();
    let rows: [(&[u8], &[u8]); 6] = [
        (b"", b""),
        (b"# a comment\n\n#\n", b""),
        (b"start", b"\x01 start;"),
        (
            b"feed s1 0100000800000000\n#\n\nfeed s2 04\nstart\n",
            b"\x01 \x00 \x01\x00\x00\x08\x00\x00\x00\x00;\x04 \x01 \x04;\x05 start;",
        ),
        (
            b"feed s2 aAbBcCdDeEfF09",
            b"\x01 \x01 \xaa\xbb\xcc\xdd\xee\xff\x09;",
        ),
        (b"\nstart\nstart\n\n", b"\x02 start;\x03 start;"),
    ];
    for (i, (file, want)) in rows.iter().enumerate() {
        let text = answer(&rt, alloc, file).ok().expect(&rt, "inputs");
        assert!(rt; text.as_slice() == *want, "row {i}");
    }
}

#[test]
fn a_line_that_is_no_input_is_bad(rt: HostRuntime) {
    let alloc = rt.alloc();
    let rows: [(&[u8], u32); 21] = [
        (b"begin", 1),
        (b"start ", 1),
        (b" start", 1),
        (b"Start", 1),
        (b"start\r\n", 1),
        (b"feed", 1),
        (b"feed ", 1),
        (b"feed s1", 1),
        (b"feed s1 ", 1),
        (b"feed s1 0", 1),
        (b"feed s1 000", 1),
        (b"feed s1 0g", 1),
        (b"feed s1 00 ", 1),
        (b"feed s1  00", 1),
        (b"feed  s1 00", 1),
        (b"feed s3 00", 1),
        (b"feed  00", 1),
        (b"Feed s1 00", 1),
        (b"#\n\nstart\nfeed s1 00\xff\nstart", 4),
        (b"start\n ", 2),
        (b"start\n #", 2),
    ];
    for (i, (file, line)) in rows.iter().enumerate() {
        let fault = answer(&rt, alloc, file).err();
        assert!(rt; fault == Some(InputFault::BadLine(*line)), "row {i}");
    }
}

/// How many inputs a file has, or its refusal.
fn count(rt: &impl Abort, alloc: Global, file: &[u8]) -> Result<usize, InputFault> {
    let inputs = read_input(alloc, &network(rt, alloc), file)?;
    Ok(inputs.list().len())
}

fn add(rt: &impl Abort, file: &mut Vec<u8>, lines: &[u8]) {
    file.extend_from_slice(lines).expect(rt, "memory");
}

/// A file of so many starts.
fn starts(rt: &impl Abort, alloc: Global, count: u32) -> Vec<u8> {
    let mut file = Vec::new(alloc);
    for _ in 0..count {
        add(rt, &mut file, b"start\n");
    }
    file
}

#[test]
fn a_million_inputs_are_taken_and_no_more(rt: HostRuntime) {
    let alloc = rt.alloc();
    let mut file = starts(&rt, alloc, 1_000_000);
    assert!(rt; count(&rt, alloc, &file) == Ok(1_000_000));
    add(&rt, &mut file, b"#\n");
    assert!(rt; count(&rt, alloc, &file) == Ok(1_000_000));
    // A line that would be one too many and is bad is bad.
    let mut bad = file.clone().expect(&rt, "memory");
    add(&rt, &mut bad, b"feed s3 00\n");
    assert!(rt; count(&rt, alloc, &bad) == Err(InputFault::BadLine(1_000_002)));
    add(&rt, &mut file, b"feed s1 00\n");
    assert!(rt; count(&rt, alloc, &file) == Err(InputFault::TooMany));
}

#[test]
fn a_refusal_has_a_number_a_name_and_a_place(rt: HostRuntime) {
    let rows = [
        (InputFault::BadLine(7), 1, "BadLine", 7),
        (InputFault::TooMany, 2, "TooMany", 0),
        (InputFault::Memory, 0, "Memory", 0),
    ];
    for (fault, number, name, place) in rows {
        assert!(rt; fault.number() == number);
        assert!(rt; fault.name() == name);
        assert!(rt; fault.place() == place);
    }
}
