ghost use Rattle.std.specs.Prelude.{◌≡◌};

use bsv_bits::{Name, OutOfMemory, Word};
use bsv_design::{Kind, path_of};
use bsv_fifo::{BypassKind, PipelineKind, PlainKind};
use bsv_prim::{
    DWireKind, Part, Primitive, PulseKind, Queue, RWireKind, RegKind, RegUKind, Rel, WireKind,
};
use std::alloc::Global;
use std::process::Abort;
use std::test::Fail;

const CF: Rel = Rel::Cf;

const SB: Rel = Rel::Sb;

const SA: Rel = Rel::Sa;

const SBR: Rel = Rel::Sbr;

const C: Rel = Rel::C;

const QUEUE_NAMES: [&str; 6] = ["enq", "deq", "first", "notFull", "notEmpty", "clear"];

/// What the tables say of a kind, method by method. A kind of two methods has the first two places.
#[derive(Clone, Copy)]
struct Sheet {
    methods: u32,
    arity: [u32; 6],
    actions: [bool; 6],
    ranks: [u32; 6],
    guarded: [bool; 6],
    relations: [[Rel; 6]; 6],
    sees: [[bool; 6]; 6],
}

/// The relations of two methods.
fn pair(first: [Rel; 2], second: [Rel; 2]) -> [[Rel; 6]; 6] {
    [
        [first[0], first[1], CF, CF, CF, CF],
        [second[0], second[1], CF, CF, CF, CF],
        [CF; 6],
        [CF; 6],
        [CF; 6],
        [CF; 6],
    ]
}

fn register_sheet() -> Sheet {
    Sheet {
        methods: 2,
        arity: [0, 1, 0, 0, 0, 0],
        actions: [false, true, false, false, false, false],
        ranks: [0, 1, 0, 0, 0, 0],
        guarded: [false; 6],
        relations: pair([CF, SB], [SA, SBR]),
        sees: [[false; 6]; 6],
    }
}

/// A wire; its read may need a write.
fn wire_sheet(arity: u32, waits: bool) -> Sheet {
    let mut sees = [[false; 6]; 6];
    sees[0][1] = true;
    Sheet {
        methods: 2,
        arity: [arity, 0, 0, 0, 0, 0],
        actions: [true, false, false, false, false, false],
        ranks: [1, 0, 0, 0, 0, 0],
        guarded: [false, waits, false, false, false, false],
        relations: pair([C, SB], [SA, CF]),
        sees,
    }
}

/// A queue: its methods are `enq`, `deq`, `first`, `notFull`, `notEmpty` and `clear`.
fn queue_sheet(enq_rank: u32, deq_rank: u32, relations: [[Rel; 6]; 6]) -> Sheet {
    Sheet {
        methods: 6,
        arity: [1, 0, 0, 0, 0, 0],
        actions: [true, true, false, false, false, true],
        ranks: [enq_rank, deq_rank, 0, 0, 0, 3],
        guarded: [true, true, true, false, false, false],
        relations,
        sees: [[false; 6]; 6],
    }
}

fn plain_sheet() -> Sheet {
    queue_sheet(
        2,
        1,
        [
            [C, CF, CF, SA, SA, SB],
            [CF, C, SA, SA, SA, SB],
            [CF, SB, CF, CF, CF, SB],
            [SB, SB, CF, CF, CF, SB],
            [SB, SB, CF, CF, CF, SB],
            [SA, SA, SA, SA, SA, SBR],
        ],
    )
}

fn pipeline_sheet() -> Sheet {
    let mut sheet = queue_sheet(
        2,
        1,
        [
            [C, SA, SA, SA, SA, SB],
            [SB, C, SA, SB, SA, SB],
            [SB, SB, CF, CF, CF, SB],
            [SB, SA, CF, CF, CF, SB],
            [SB, SB, CF, CF, CF, SB],
            [SA, SA, SA, SA, SA, SBR],
        ],
    );
    sheet.sees[1] = [true, false, false, true, false, false];
    sheet
}

fn bypass_sheet() -> Sheet {
    let mut sheet = queue_sheet(
        1,
        2,
        [
            [C, SB, SB, SA, SB, SB],
            [SA, C, SA, SA, SA, SB],
            [SA, SB, CF, CF, CF, SB],
            [SB, SB, CF, CF, CF, SB],
            [SA, SB, CF, CF, CF, SB],
            [SA, SA, SA, SA, SA, SBR],
        ],
    );
    sheet.sees[0] = [false, true, true, false, true, false];
    sheet
}

fn needs_threads<T: Send + Sync>(_value: &T) {}

/// One method against its line.
fn check_method(
    rt: &impl Abort,
    alloc: Global,
    kind: &Kind,
    sheet: &Sheet,
    method: u32,
) -> Result<(), OutOfMemory> {
    if method >= kind.methods() || method >= 6 {
        return Ok(());
    }
    let place = method as usize;
    assert_eq!(rt; kind.arity(method), sheet.arity[place]);
    assert_eq!(rt; kind.is_action(method), sheet.actions[place]);
    assert_eq!(rt; kind.rank(method), sheet.ranks[place]);
    assert_eq!(rt; kind.guarded(method), sheet.guarded[place]);
    let _guard = kind.guard_piece(alloc, method)?;
    if !kind.is_action(method) {
        let _result = kind.result_piece(alloc, method)?;
    }
    Ok(())
}

/// A method's name, in both directions.
fn check_name(
    rt: &impl Abort,
    alloc: Global,
    kind: &Kind,
    method: u32,
    text: &str,
) -> Result<(), OutOfMemory> {
    let name = Name::new(alloc, text.as_bytes())?;
    assert_eq!(rt; kind.method_number(&name), Some(method), "{text}");
    if method < kind.methods() {
        assert_eq!(rt; kind.method_name(method), text);
    }
    Ok(())
}

/// The names of a kind's methods in order, and some that it has not.
fn check_names(
    rt: &impl Abort,
    alloc: Global,
    kind: &Kind,
    names: &[&str],
) -> Result<(), OutOfMemory> {
    for method in 0..6u32 {
        if let Some(text) = names.get(method as usize) {
            check_name(rt, alloc, kind, method, text)?;
        }
    }
    let other = Name::new(alloc, b"notfull")?;
    assert_eq!(rt; kind.method_number(&other), None);
    let empty = Name::new(alloc, b"")?;
    assert_eq!(rt; kind.method_number(&empty), None);
    Ok(())
}

/// One pair of methods against its entry.
fn check_pair(rt: &impl Abort, kind: &Kind, sheet: &Sheet, first: u32, second: u32) {
    if first < kind.methods() && second < kind.methods() && first < 6 && second < 6 {
        let (row, column) = (first as usize, second as usize);
        assert_eq!(rt; kind.relation(first, second), sheet.relations[row][column]);
        assert_eq!(rt; kind.sees(first, second), sheet.sees[row][column]);
    }
}

fn check_row(rt: &impl Abort, kind: &Kind, sheet: &Sheet, first: u32) {
    for second in 0..6 {
        check_pair(rt, kind, sheet, first, second);
    }
}

/// Each method and each pair of methods, and the pieces of the registers.
fn walk(rt: &impl Abort, alloc: Global, kind: &Kind, sheet: &Sheet) -> Result<(), OutOfMemory> {
    assert_eq!(rt; kind.methods(), sheet.methods);
    for method in 0..6 {
        check_method(rt, alloc, kind, sheet, method)?;
        check_row(rt, kind, sheet, method);
    }
    next_pieces(alloc, kind)?;
    Ok(())
}

fn next_pieces(alloc: Global, kind: &Kind) -> Result<(), OutOfMemory> {
    for register in 0..kind.registers() {
        let _piece = kind.next_piece(alloc, register)?;
    }
    Ok(())
}

/// Each guard on a part.
fn check_guards(rt: &impl Abort, kind: &Kind, part: &Part, ready: [bool; 6]) {
    assert!(rt; kind.fits(part));
    for method in 0..6 {
        if method < kind.methods() && kind.fits(part) {
            assert_eq!(rt; kind.guard(method, part), ready[method as usize]);
        }
    }
}

/// A test's word of 8 bits.
fn byte(value: u8) -> Word
    ensures { result ≡ record { width = 8; value = value } }
{
    match Word::new(8, u128::from(value)) {
        Some(word) => word,
        None => unreachable!(),
    }
}

/// A queue of this depth with so many words.
fn queue_of(alloc: Global, depth: u32, count: u32) -> Result<Part, OutOfMemory> {
    let mut queue = Queue::new(alloc, depth)?;
    for _turn in 0..count {
        if queue.len() < queue.depth() {
            queue.push(byte(7));
        }
    }
    Ok(Part::Queue(queue))
}

/// What a value method without arguments answers.
fn check_result(rt: &impl Abort, kind: &Kind, part: &Part, method: u32, answer: Word) {
    if method < kind.methods() && !kind.is_action(method) && kind.arity(method) == 0 {
        assert!(rt; kind.fits(part));
        if kind.fits(part) {
            assert_eq!(rt; kind.result(method, part, &[]), answer);
        }
        return;
    }
    assert!(rt; false, "no such method: {method}");
}

/// What `first`, `notFull` and `notEmpty` answer.
fn check_answers(rt: &impl Abort, kind: &Kind, part: &Part, front: u8, room: bool, item: bool) {
    check_result(rt, kind, part, 2, byte(front));
    check_result(rt, kind, part, 3, Word::bit(room));
    check_result(rt, kind, part, 4, Word::bit(item));
}

/// Guards and answers at empty, one item and full.
fn check_queue(rt: &impl Abort, alloc: Global, kind: &Kind, depth: u32) -> Result<(), OutOfMemory> {
    let empty = queue_of(alloc, depth, 0)?;
    check_guards(
        rt,
        kind,
        &kind.opening(alloc)?,
        [true, false, false, true, true, true],
    );
    check_guards(rt, kind, &empty, [true, false, false, true, true, true]);
    check_answers(rt, kind, &empty, 0, true, false);
    let one = queue_of(alloc, depth, 1)?;
    check_guards(rt, kind, &one, [depth > 1, true, true, true, true, true]);
    check_answers(rt, kind, &one, 7, depth > 1, true);
    let full = queue_of(alloc, depth, depth)?;
    check_guards(rt, kind, &full, [false, true, true, true, true, true]);
    check_answers(rt, kind, &full, 7, false, true);
    Ok(())
}

/// A queue's registers: the count, and one for each place.
fn check_registers(rt: &impl Abort, kind: &Kind, depth: u32, count_width: u32) {
    assert_eq!(rt; u64::from(kind.registers()), u64::from(depth) + 1);
    if kind.registers() > 1 {
        let count = kind.register(0);
        assert!(rt; count.width == count_width && count.start.value() == 0 && count.resets);
        let front = kind.register(1);
        assert!(rt; front.width == 8 && front.start == byte(0) && front.resets);
    }
}

#[test]
fn registers(rt: HostRuntime) -> Result<(), Fail> {
    let reg = Kind::Reg(RegKind {
        width: 8,
        start: byte(0x0c),
    });
    walk(&rt, rt.alloc(), &reg, &register_sheet())?;
    check_names(&rt, rt.alloc(), &reg, &["_read", "_write"])?;
    check_guards(&rt, &reg, &reg.opening(rt.alloc())?, [true; 6]);
    check_guards(&rt, &reg, &Part::Number(byte(1)), [true; 6]);
    let register = reg.register(0);
    assert!(rt; register.width == 8 && register.start == byte(0x0c) && register.resets);
    let regu = Kind::RegU(RegUKind { width: 8 });
    walk(&rt, rt.alloc(), &regu, &register_sheet())?;
    check_names(&rt, rt.alloc(), &regu, &["_read", "_write"])?;
    check_guards(&rt, &regu, &regu.opening(rt.alloc())?, [true; 6]);
    let register = regu.register(0);
    assert!(rt; register.width == 8 && register.start == byte(0xaa) && !register.resets);
    Ok(())
}

#[test]
fn wires(rt: HostRuntime) -> Result<(), Fail> {
    let alloc = rt.alloc();
    let wire = Kind::Wire(WireKind { width: 8 });
    let dwire = Kind::DWire(DWireKind {
        width: 8,
        default: byte(7),
    });
    let rwire = Kind::RWire(RWireKind { width: 8 });
    let pulse = Kind::Pulse(PulseKind {});
    walk(&rt, alloc, &wire, &wire_sheet(1, true))?;
    walk(&rt, alloc, &dwire, &wire_sheet(1, false))?;
    walk(&rt, alloc, &rwire, &wire_sheet(1, false))?;
    walk(&rt, alloc, &pulse, &wire_sheet(0, false))?;
    check_names(&rt, alloc, &wire, &["_write", "_read"])?;
    check_names(&rt, alloc, &dwire, &["_write", "_read"])?;
    check_names(&rt, alloc, &rwire, &["wset", "wget"])?;
    check_names(&rt, alloc, &pulse, &["send", "_read"])?;
    let empty_wire = [true, false, true, true, true, true];
    check_guards(&rt, &wire, &wire.opening(alloc)?, empty_wire);
    check_guards(&rt, &wire, &Part::Held(Some(byte(1))), [true; 6]);
    check_guards(&rt, &dwire, &dwire.opening(alloc)?, [true; 6]);
    check_guards(&rt, &rwire, &rwire.opening(alloc)?, [true; 6]);
    check_guards(&rt, &pulse, &pulse.opening(alloc)?, [true; 6]);
    check_guards(&rt, &dwire, &Part::Held(Some(byte(1))), [true; 6]);
    check_guards(&rt, &rwire, &Part::Held(Some(byte(1))), [true; 6]);
    check_guards(&rt, &pulse, &Part::Held(Some(Word::bit(true))), [true; 6]);
    assert_eq!(rt;
        wire.registers() + dwire.registers() + rwire.registers() + pulse.registers(),
        0
    );
    Ok(())
}

#[test]
fn queues(rt: HostRuntime) -> Result<(), Fail> {
    for (depth, count_width) in [(1, 1), (2, 2), (3, 2), (64, 7)] {
        let kind = Kind::Plain(PlainKind { width: 8, depth });
        walk(&rt, rt.alloc(), &kind, &plain_sheet())?;
        check_names(&rt, rt.alloc(), &kind, &QUEUE_NAMES)?;
        check_queue(&rt, rt.alloc(), &kind, depth)?;
        check_registers(&rt, &kind, depth, count_width);
    }
    let kind = Kind::Pipeline(PipelineKind { width: 8 });
    walk(&rt, rt.alloc(), &kind, &pipeline_sheet())?;
    check_names(&rt, rt.alloc(), &kind, &QUEUE_NAMES)?;
    check_queue(&rt, rt.alloc(), &kind, 1)?;
    check_registers(&rt, &kind, 1, 1);
    let kind = Kind::Bypass(BypassKind { width: 8 });
    walk(&rt, rt.alloc(), &kind, &bypass_sheet())?;
    check_names(&rt, rt.alloc(), &kind, &QUEUE_NAMES)?;
    check_queue(&rt, rt.alloc(), &kind, 1)?;
    check_registers(&rt, &kind, 1, 1);
    Ok(())
}

#[test]
fn calls(rt: HostRuntime) -> Result<(), Fail> {
    let reg = Kind::Reg(RegKind {
        width: 8,
        start: byte(0x0c),
    });
    let mut part = reg.opening(rt.alloc())?;
    reg.apply(1, &mut part, &[byte(0xc1)]);
    reg.emptied(&mut part);
    assert_eq!(rt;
        (reg.argument_width(1, 0), reg.result(0, &part, &[])),
        (8, byte(0xc1))
    );
    let wire = Kind::RWire(RWireKind { width: 8 });
    let mut part = wire.opening(rt.alloc())?;
    wire.apply(0, &mut part, &[byte(1)]);
    assert_eq!(rt; wire.result(1, &part, &[]).value(), 0x101);
    wire.emptied(&mut part);
    assert_eq!(rt; wire.result(1, &part, &[]).value(), 0);
    let queue = Kind::Plain(PlainKind { width: 8, depth: 2 });
    let mut part = queue.opening(rt.alloc())?;
    queue.apply(0, &mut part, &[byte(1)]);
    queue.apply(0, &mut part, &[byte(2)]);
    queue.apply(1, &mut part, &[]);
    assert_eq!(rt; queue.result(2, &part, &[]), byte(2));
    needs_threads(&queue);
    Ok(())
}

#[test]
fn paths(rt: HostRuntime) -> Result<(), Fail> {
    let inside = path_of(rt.alloc(), b"cpu.alu", b"add")?;
    assert_eq!(rt; inside.bytes(), b"cpu.alu.add".as_slice());
    let top = path_of(rt.alloc(), b"", b"add")?;
    assert_eq!(rt; top.bytes(), b"add".as_slice());
    Ok(())
}
