//! Tests of random programs from a fixed seed: each must be refused with a number, or run to an answer.
use interp::{Context, Layout, run};
use std::alloc::{AllocError, Global};
use std::test::Fail;
use verifier::verifying::verify;
use verifier::{Counters, PointView, View};

/// A generator of random numbers from a seed (xorshift64*).
#[derive(Drop)]
struct Numbers {
    state: u64,
}

impl Numbers {
    fn next(&mut self) -> u64 {
        self.state ^= self.state >> 12;
        self.state ^= self.state << 25;
        self.state ^= self.state >> 27;
        self.state.wrapping_mul(0x2545_F491_4F6C_DD1D)
    }

    /// Returns one of these choices at random, or 0 if there are none.
    fn pick(&mut self, choices: &[u8]) -> u8 {
        let place = self.next() % 64;
        choices
            .get(place as usize % choices.len().max(1))
            .copied()
            .unwrap_or(0)
    }
}

/// The result of verifying and running some bytes as a program.
#[derive(Clone, Copy)]
enum Verdict {
    /// The verifier refused the bytes with the fault of this number, such as 7 for V7.
    Refused(u32),
    /// The program was accepted, and its run ended with this number.
    Answered(u64),
}

/// The results of many programs: how many passed the decoder, how many were accepted, and the sum of all answers.
/// `unnumbered` is how many were refused without a number from 1 to 20.
#[derive(Clone, Copy)]
struct Tally {
    decoded: u32,
    accepted: u32,
    answers: u64,
    unnumbered: u32,
}

impl Tally {
    fn count(&mut self, verdict: Option<Verdict>) {
        match verdict {
            Some(Verdict::Answered(answer)) => {
                self.decoded = self.decoded.wrapping_add(1);
                self.accepted = self.accepted.wrapping_add(1);
                self.answers = self.answers.wrapping_add(answer);
            }
            Some(Verdict::Refused(6..=20)) => self.decoded = self.decoded.wrapping_add(1),
            Some(Verdict::Refused(1..=5)) => {}
            _ => self.unnumbered = self.unnumbered.wrapping_add(1),
        }
    }
}

/// The choices for the bytes of a random unit: opcode, registers (source in the high four bits), low and high byte of
/// the offset, and immediate. They suit programs with numbers in R0, R6 and R7, the context in R1 and the stack in R10.
struct Form {
    opcodes: &'static [u8],
    registers: &'static [u8],
    offsets: &'static [u8],
    high: u8,
    immediates: &'static [u8],
}

const NONE: &[u8] = &[0];

const NUMBER: &[u8] = &[0, 0, 0, 6, 7];

const TWO_NUMBERS: &[u8] = &[
    0x00, 0x00, 0x00, 0x00, 0x60, 0x70, 0x06, 0x66, 0x76, 0x07, 0x67, 0x77,
];

const SMALL: &[u8] = &[0, 1, 2, 3, 8, 16, 31];

const IMMEDIATE: Form = Form {
    opcodes: &[
        0x04, 0x07, 0x14, 0x17, 0x24, 0x27, 0x34, 0x37, 0x44, 0x47, 0x54, 0x57, 0x64, 0x67, 0x74,
        0x77, 0x94, 0x97, 0xa4, 0xa7, 0xb4, 0xb7, 0xc4, 0xc7, 0xb7, 0xb7, 0xb7,
    ],
    registers: NUMBER,
    offsets: NONE,
    high: 0,
    immediates: SMALL,
};

const REGISTER: Form = Form {
    opcodes: &[
        0x0c, 0x0f, 0x1c, 0x1f, 0x2c, 0x2f, 0x3c, 0x3f, 0x4c, 0x4f, 0x5c, 0x5f, 0x6c, 0x6f, 0x7c,
        0x7f, 0x9c, 0x9f, 0xac, 0xaf, 0xbc, 0xbf, 0xcc, 0xcf,
    ],
    registers: TWO_NUMBERS,
    offsets: NONE,
    high: 0,
    immediates: NONE,
};

const NEGATION: Form = Form {
    opcodes: &[0x84, 0x87],
    registers: NUMBER,
    offsets: NONE,
    high: 0,
    immediates: NONE,
};

const BYTE_ORDER: Form = Form {
    opcodes: &[0xd4, 0xdc, 0xd7],
    registers: NUMBER,
    offsets: NONE,
    high: 0,
    immediates: &[16, 32, 64],
};

const BRANCH: Form = Form {
    opcodes: &[
        0x15, 0x16, 0x25, 0x26, 0x35, 0x36, 0x45, 0x46, 0x55, 0x56, 0x65, 0x66, 0x75, 0x76, 0xa5,
        0xa6, 0xb5, 0xb6, 0xc5, 0xc6, 0xd5, 0xd6,
    ],
    registers: NUMBER,
    offsets: &[0, 1, 2, 3],
    high: 0,
    immediates: SMALL,
};

const LOAD: Form = Form {
    opcodes: &[0x71, 0x69, 0x61, 0x79, 0x91, 0x89, 0x81],
    registers: &[0x10, 0x10, 0x10, 0x16, 0x17],
    offsets: SMALL,
    high: 0,
    immediates: NONE,
};

const STORE_IMMEDIATE: Form = Form {
    opcodes: &[0x72, 0x6a, 0x62, 0x7a],
    registers: &[0x0a],
    offsets: &[240],
    high: 255,
    immediates: NONE,
};

const STORE_REGISTER: Form = Form {
    opcodes: &[0x73, 0x6b, 0x63, 0x7b],
    registers: &[0x0a, 0x0a, 0x6a, 0x7a],
    offsets: &[240],
    high: 255,
    immediates: NONE,
};

const CALL: Form = Form {
    opcodes: &[0x85],
    registers: NONE,
    offsets: NONE,
    high: 0,
    immediates: &[4, 6, 99],
};

const FORMS: [Form; 16] = [
    IMMEDIATE,
    IMMEDIATE,
    IMMEDIATE,
    IMMEDIATE,
    IMMEDIATE,
    IMMEDIATE,
    REGISTER,
    REGISTER,
    REGISTER,
    NEGATION,
    BYTE_ORDER,
    BRANCH,
    LOAD,
    STORE_IMMEDIATE,
    STORE_REGISTER,
    CALL,
];

/// Returns a random unit (an instruction slot of eight bytes) of one of the forms.
fn unit_of(numbers: &mut Numbers) -> [u8; 8] {
    let place = numbers.next() % 16;
    let form = &FORMS[place as usize];
    [
        numbers.pick(form.opcodes),
        numbers.pick(form.registers),
        numbers.pick(form.offsets),
        form.high,
        numbers.pick(form.immediates),
        0,
        0,
        0,
    ]
}

/// Returns 1 to 64 units (of eight bytes each) of random bytes. The error is that memory ran out.
fn noise(alloc: Global, numbers: &mut Numbers) -> Result<Vec<u8>, AllocError> {
    let mut bytes = Vec::new(alloc);
    for _ in 0..=numbers.next() % 64 {
        bytes.extend_from_slice(&numbers.next().to_le_bytes())?;
    }
    Ok(bytes)
}

/// Returns 1 to 64 units that look like a program: first numbers for R0, R6 and R7, then random units, and EXIT at the
/// end. The error is that memory ran out.
fn likeness(alloc: Global, numbers: &mut Numbers) -> Result<Vec<u8>, AllocError> {
    let mut bytes = Vec::new(alloc);
    let longest = numbers.next() % 64;
    let count = numbers.next() % (longest + 1);
    for place in 0..count {
        let unit = match place {
            0 => [0xb7, 0, 0, 0, 5, 0, 0, 0],
            1 => [0xb7, 6, 0, 0, 3, 0, 0, 0],
            2 => [0xb7, 7, 0, 0, 9, 0, 0, 0],
            _ => unit_of(numbers),
        };
        bytes.extend_from_slice(&unit)?;
    }
    bytes.extend_from_slice(&[0x95, 0, 0, 0, 0, 0, 0, 0])?;
    Ok(bytes)
}

fn world() -> View {
    View {
        count: 1,
        points: [PointView {
            state: 3,
            nozzle: 0,
            amount: 0,
        }; 32],
        prices: [1799; 8],
    }
}

fn judged(alloc: Global, bytes: &[u8]) -> Option<Verdict> {
    match verify(alloc, bytes, 0, Layout::One) {
        Ok(program) => {
            let mut counters = Counters::new([(0, 0); 32]);
            Some(Verdict::Answered(run(&program, &Context::One([1; 64]), &world(), &mut counters)))
        }
        Err(refusal) => {
            let (number, _, _) = refusal.fault_numbers()?;
            Some(Verdict::Refused(number))
        }
    }
}

fn tallied(alloc: Global) -> Result<Tally, AllocError> {
    let mut numbers = Numbers { state: 20_261_122 };
    let mut tally = Tally {
        decoded: 0,
        accepted: 0,
        answers: 0,
        unnumbered: 0,
    };
    for _ in 0..5_000u32 {
        tally.count(judged(alloc, &noise(alloc, &mut numbers)?));
        tally.count(judged(alloc, &likeness(alloc, &mut numbers)?));
    }
    Ok(tally)
}

#[test]
fn random_programs(rt: HostRuntime) -> Result<(), Fail> {
    let tally = tallied(rt.alloc())?;
    assert!(rt;
        tally.unnumbered == 0,
        "{} without a number",
        tally.unnumbered
    );
    assert!(rt;
        tally.decoded >= 3_334,
        "{} passed the decoder",
        tally.decoded
    );
    assert!(rt; tally.accepted >= 300, "{} were accepted", tally.accepted);
    assert!(rt; tally.answers != 0);
    Ok(())
}
