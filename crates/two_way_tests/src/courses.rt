//! What a driver says in the course of calls, as text.
ghost use Rattle.std.specs.Prelude.{◌≡◌, ◌<◌, None};
ghost use Rattle.topology.specs.Networks.{switch_count};
ghost use Rattle.two_way_driver.specs.Calls.{IsServing};

use crate::fixture::{network, two_inverses, two_rounds};
use hex::encode;
use net_base::SwitchId;
use std::alloc::Global;
use std::process::Abort;
use two_way_driver::{CallFault, Cause, Driver, DriverEvent, DriverOutput, Stage};

/// What is done with a driver.
#[derive(Clone, Copy)]
pub(crate) enum Step {
    Start,
    Back,
    Reopen(u32),
    Dead(u32),
    Feed(u32, &'static [u8]),
}

fn add(rt: &impl Abort, text: &mut Vec<u8>, words: &[u8]) {
    text.extend_from_slice(words).expect(rt, "memory");
}

/// Adds a number below ten.
fn add_digit(rt: &impl Abort, text: &mut Vec<u8>, number: usize) {
    text.push(b'0' + (number % 10) as u8).expect(rt, "memory");
}

fn add_hex(rt: &impl Abort, alloc: Global, text: &mut Vec<u8>, bytes: &[u8]) {
    let digits = encode(alloc, bytes).expect(rt, "memory");
    add(rt, text, b" ");
    add(rt, text, digits.as_bytes());
}

/// Adds a message: its header, and of a flow message its command and its actions.
fn add_message(rt: &impl Abort, alloc: Global, text: &mut Vec<u8>, bytes: &[u8]) {
    if bytes.len() < 72 {
        add_hex(rt, alloc, text, bytes);
        return;
    }
    add_hex(rt, alloc, text, &bytes[0..8]);
    add_hex(rt, alloc, text, &bytes[56..58]);
    add_hex(rt, alloc, text, &bytes[72..bytes.len()]);
}

fn add_event(rt: &impl Abort, text: &mut Vec<u8>, event: DriverEvent) {
    match event {
        DriverEvent::Start => add(rt, text, b"start"),
        DriverEvent::Change(number) => {
            add(rt, text, b"change ");
            add_digit(rt, text, number);
        }
        DriverEvent::Settle => add(rt, text, b"settle"),
        DriverEvent::Back => add(rt, text, b"back"),
        DriverEvent::Undo(number) => {
            add(rt, text, b"undo ");
            add_digit(rt, text, number);
        }
        DriverEvent::SettleBack => add(rt, text, b"settle back"),
    }
}

fn cause_word(cause: Cause) -> &'static [u8] {
    match cause {
        Cause::Length => b" Length",
        Cause::Version => b" Version",
        Cause::NoHello => b" NoHello",
        Cause::Error(_, _) => b" Error",
        Cause::Xid(_) => b" Xid",
    }
}

/// Adds a line for what was said.
fn add_said(rt: &impl Abort, alloc: Global, text: &mut Vec<u8>, said: &DriverOutput) {
    match said {
        DriverOutput::Send(switch, message) => {
            add(rt, text, b"s");
            add_digit(rt, text, switch.0 as usize);
            add_message(rt, alloc, text, message.bytes());
        }
        DriverOutput::Failed(switch, cause) => {
            add(rt, text, b"failed s");
            add_digit(rt, text, switch.0 as usize);
            add(rt, text, cause_word(*cause));
        }
        DriverOutput::Log(event) => add_event(rt, text, *event),
    }
    add(rt, text, b"\n");
}

fn add_stage(rt: &impl Abort, text: &mut Vec<u8>, stage: Stage) {
    match stage {
        Stage::Settled(k) => {
            add(rt, text, b"settled ");
            add_digit(rt, text, k as usize);
        }
        Stage::Onward(k) => {
            add(rt, text, b"onward ");
            add_digit(rt, text, k as usize);
        }
        Stage::Undone(k) => {
            add(rt, text, b"undone ");
            add_digit(rt, text, k as usize);
        }
    }
    add(rt, text, b"\n");
}

/// No words, where memory ran out.
fn no_words() -> Option<&'static [u8]>
    ensures { result ≡ None }
{
    None
}

fn start(rt: &impl Abort, driver: &mut Driver) -> &'static [u8]
    requires { IsServing driver.old }
    ensures serving { IsServing driver.new }
    ensures net { driver.new.net ≡ driver.old.net }
{
    match driver.start() {
        Ok(()) => b"",
        Err(CallFault::Running) => b"no running\n",
        Err(CallFault::Finished) => b"no finished\n",
        Err(CallFault::NotBegun) => b"no begun\n",
        Err(CallFault::NotOpen(_)) => b"no open\n",
        Err(CallFault::Memory) => no_words().expect(rt, "memory"),
    }
}

fn back(rt: &impl Abort, driver: &mut Driver) -> &'static [u8]
    requires { IsServing driver.old }
    ensures serving { IsServing driver.new }
    ensures net { driver.new.net ≡ driver.old.net }
{
    match driver.back() {
        Ok(()) => b"",
        Err(CallFault::Running) => b"no running\n",
        Err(CallFault::Finished) => b"no finished\n",
        Err(CallFault::NotBegun) => b"no begun\n",
        Err(CallFault::NotOpen(_)) => b"no open\n",
        Err(CallFault::Memory) => no_words().expect(rt, "memory"),
    }
}

/// Does a step, and gives its refusal.
fn do_step(rt: &impl Abort, driver: &mut Driver, step: Step) -> &'static [u8]
    requires serving { IsServing driver.old }
    requires two { switch_count driver.old.net ≡ 2 }
    ensures serving { IsServing driver.new }
    ensures net { driver.new.net ≡ driver.old.net }
{
    match step {
        Step::Start => start(rt, driver),
        Step::Back => back(rt, driver),
        Step::Reopen(number) => {
            assert!(rt; number < 2);
            driver.reopen(SwitchId(number)).expect(rt, "memory");
            b""
        }
        Step::Dead(number) => {
            assert!(rt; number < 2);
            driver.dead(SwitchId(number)).expect(rt, "memory");
            b""
        }
        Step::Feed(number, bytes) => {
            assert!(rt; number < 2);
            driver.feed(SwitchId(number), bytes).expect(rt, "memory");
            b""
        }
    }
}

/// Adds what was said, which the driver then forgets.
fn add_words(rt: &impl Abort, alloc: Global, text: &mut Vec<u8>, driver: &mut Driver)
    requires serving { IsServing driver.old }
    ensures serving { IsServing driver.new }
    ensures net { driver.new.net ≡ driver.old.net }
{
    for said in driver.said() {
        add_said(rt, alloc, text, said);
    }
    driver.forget();
}

/// What a driver of the two rounds says in the course of steps, and how far it is then.
pub(crate) fn course(rt: &impl Abort, alloc: Global, steps: &[Step]) -> Vec<u8> {
    let net = network(rt, alloc);
    let rounds = two_rounds(rt, alloc);
    let inverses = two_inverses(rt, alloc);
    let mut driver = Driver::make(alloc, &net, &rounds, &inverses).expect(rt, "memory");
    let mut text = Vec::new(alloc);
    add_words(rt, alloc, &mut text, &mut driver);
    for one in steps {
        let refusal = do_step(rt, &mut driver, *one);
        add(rt, &mut text, refusal);
        add_words(rt, alloc, &mut text, &mut driver);
    }
    add_stage(rt, &mut text, driver.stage());
    text
}
