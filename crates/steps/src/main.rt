// Document 01's worked steps 1 to 13, with the numbers as order 3 corrects them, through the entries, on a state that is lent: a line for each step, with the
// number of each call. Then step 13 by refusals, and the relay's attack. What it writes is compared with the file stdout beside it.
#![tactic(auto)]

use module_state::{CREDENTIALS, DONE, Refusal};
use names::NAME_LENGTH;
use state_layout::STATE_LENGTH;

// 16 zero bytes, 31 of one value and a last one.
fn name(most: u8, last: u8) -> [u8; NAME_LENGTH] {
    let mut bytes = [0u8; NAME_LENGTH];
    bytes[16..47].fill(most);
    bytes[47] = last;
    bytes
}

fn p() -> [u8; NAME_LENGTH] {
    name(0x11, 0x11)
}

fn q() -> [u8; NAME_LENGTH] {
    name(0x22, 0x22)
}

fn r() -> [u8; NAME_LENGTH] {
    name(0x11, 0x12)
}

// What the entries take: the port, of which document 01's sessions are those of the first; the kind of a claim, its verdict, whether a process is kept, the
// wanted credential of a listing of all.
const PORT: u32 = 0;

const USER: u32 = 0;

const YES: u32 = 1;

const NO: u32 = 0;

const KEPT: u32 = 1;

const ALL: u32 = 65535;

// What can't be written is not told.
fn begin(rt: &HostRuntime, step: u64) {
    let _ = print!(rt; "{step}:");
}

fn say(rt: &HostRuntime, n: u64) {
    let _ = print!(rt; " {n}");
}

fn end_line(rt: &HostRuntime) {
    let _ = print!(rt; "\n");
}

// Writes the number that an entry answered.
fn told(rt: &HostRuntime, n: u32) {
    say(rt, u64::from(n));
}

fn open(rt: &HostRuntime, state: &mut [u8], s: u32) {
    told(rt, entries_unprotected::slavotuk_open(state, PORT, s));
}

fn select(rt: &HostRuntime, state: &mut [u8], s: u32, version: u32) {
    told(
        rt,
        entries_unprotected::slavotuk_select(state, PORT, s, version),
    );
}

fn start(rt: &HostRuntime, state: &mut [u8], s: u32, c: u32, name: &[u8]) {
    told(
        rt,
        entries_unprotected::slavotuk_start(state, PORT, s, c, name),
    );
}

fn continue_saved(rt: &HostRuntime, state: &mut [u8], s: u32, c: u32, name: &[u8]) {
    told(
        rt,
        entries_unprotected::slavotuk_continue(state, PORT, s, c, name),
    );
}

fn record(rt: &HostRuntime, state: &mut [u8], c: u32, number: u16, class: u32) {
    told(
        rt,
        entries_protected::slavotuk_record(state, PORT, 0, USER, c, number, YES, class),
    );
}

fn kill(rt: &HostRuntime, state: &mut [u8], s: u32, c: u32, number: u16, name: &[u8]) {
    told(
        rt,
        entries_protected::slavotuk_kill(state, PORT, s, USER, c, number, YES, name),
    );
}

// The number of a listing of all, and the length of its message.
fn list(rt: &HostRuntime, state: &mut [u8], number: u16, response: &mut [u8]) {
    let mut long: usize = 0;
    told(
        rt,
        entries_protected::slavotuk_list(
            state, PORT, 0, USER, 0, number, YES, ALL, response, &mut long,
        ),
    );
    say(rt, long as u64);
}

// "Credentials 0 (word 15) and 1 (word 16) are provisioned." No class is granted only under elevation.
fn fresh(state: &mut [u8]) {
    let mut provisioned = [0u8; CREDENTIALS];
    let mut words = [0u32; CREDENTIALS];
    provisioned[0] = 1;
    words[0] = 15;
    provisioned[1] = 1;
    words[1] = 16;
    let seconds = [0u32; CREDENTIALS];
    entries_unprotected::slavotuk_fresh(state, &provisioned, &words, &seconds);
}

fn step1(rt: &HostRuntime, state: &mut [u8]) {
    begin(rt, 1);
    open(rt, state, 4);
    open(rt, state, 0);
    open(rt, state, 0);
    end_line(rt);
}

fn step2(rt: &HostRuntime, state: &mut [u8]) {
    begin(rt, 2);
    start(rt, state, 0, 0, &p());
    select(rt, state, 0, 0x20);
    select(rt, state, 0, 0x10);
    select(rt, state, 0, 0x10);
    end_line(rt);
}

fn step3(rt: &HostRuntime, state: &mut [u8]) {
    begin(rt, 3);
    start(rt, state, 0, 2, &p());
    start(rt, state, 0, 0, &p());
    start(rt, state, 0, 1, &p());
    end_line(rt);
}

fn step4(rt: &HostRuntime, state: &mut [u8]) {
    begin(rt, 4);
    start(rt, state, 0, 1, &r());
    start(rt, state, 0, 1, &p());
    end_line(rt);
}

fn step5(rt: &HostRuntime, state: &mut [u8]) {
    begin(rt, 5);
    record(rt, state, 1, 0, 4);
    record(rt, state, 1, 0, 4);
    end_line(rt);
}

fn step6(rt: &HostRuntime, state: &mut [u8]) {
    begin(rt, 6);
    told(
        rt,
        entries_protected::slavotuk_record(state, PORT, 0, USER, 1, 1, NO, 4),
    );
    record(rt, state, 1, 1, 5);
    record(rt, state, 1, 2, 4);
    end_line(rt);
}

fn step7(rt: &HostRuntime, state: &mut [u8]) {
    begin(rt, 7);
    record(rt, state, 1, 3, 3);
    record(rt, state, 1, 3, 31);
    end_line(rt);
}

fn step8(rt: &HostRuntime, state: &mut [u8]) {
    begin(rt, 8);
    kill(rt, state, 0, 1, 4, &p());
    kill(rt, state, 0, 1, 5, &q());
    end_line(rt);
}

fn step9(rt: &HostRuntime, state: &mut [u8]) {
    begin(rt, 9);
    kill(rt, state, 0, 0, 0, &r());
    record(rt, state, 1, 2, 4);
    end_line(rt);
}

fn step10(rt: &HostRuntime, state: &mut [u8]) {
    begin(rt, 10);
    let mut short = [0u8; 54];
    list(rt, state, 1, &mut short);
    let mut enough = [0u8; 55];
    list(rt, state, 2, &mut enough);
    end_line(rt);
}

fn next_number(state: &[u8]) -> u64 {
    u64::from(table::process_at(state_read::read(state).table, 0).next)
}

fn standing(state: &[u8]) -> u64 {
    table::size(state_read::read(state).table) as u64
}

// The numbers, and the next number of the one process.
fn step11(rt: &HostRuntime, state: &mut [u8]) {
    begin(rt, 11);
    told(
        rt,
        entries_protected::slavotuk_end(state, PORT, 0, 0, 3, YES, KEPT),
    );
    open(rt, state, 1);
    select(rt, state, 1, 0x10);
    continue_saved(rt, state, 1, 0, &q());
    continue_saved(rt, state, 1, 0, &p());
    say(rt, next_number(state));
    end_line(rt);
}

// Eleven saved processes of credential 0 beside the active one: twelve stand.
fn fill(state: &mut [u8]) {
    for i in 0..11 {
        entries_unprotected::slavotuk_start(state, PORT, 0, 0, &name(0x33, i));
        entries_protected::slavotuk_end(state, PORT, 0, 0, 0, YES, KEPT);
    }
}

fn step12(rt: &HostRuntime, state: &mut [u8]) {
    begin(rt, 12);
    fill(state);
    say(rt, standing(state));
    start(rt, state, 0, 1, &r());
    kill(rt, state, 1, 0, 4, &name(0x33, 5));
    start(rt, state, 0, 1, &r());
    end_line(rt);
}

// Numbers 0 to 65,534 of credential 1, each in turn, with that class: how many get that number.
fn spend(rt: &HostRuntime, state: &mut [u8], class: u32, number: u32) {
    let mut got: u64 = 0;
    for i in 0..65535 {
        if entries_protected::slavotuk_record(state, PORT, 0, USER, 1, i, YES, class) == number {
            got += 1;
        }
    }
    say(rt, got);
}

// Then every number: how many get 13.
fn spent(rt: &HostRuntime, state: &mut [u8]) {
    let mut refused: u64 = 0;
    for i in 0u64..65536 {
        let answer = entries_protected::slavotuk_record(state, PORT, 0, USER, 1, i as u16, YES, 4);
        if answer == Refusal::Spent as u32 {
            refused += 1;
        }
    }
    say(rt, refused);
}

fn step13(rt: &HostRuntime, state: &mut [u8], class: u32, number: u32) {
    begin(rt, 13);
    spend(rt, state, class, number);
    spent(rt, state);
    end_line(rt);
}

// A kill that has got 6 is sent again, once the named process has started.
fn relay(rt: &HostRuntime, state: &mut [u8]) {
    let _ = print!(rt; "relay:");
    open(rt, state, 0);
    select(rt, state, 0, 0x10);
    start(rt, state, 0, 0, &p());
    kill(rt, state, 0, 0, 0, &q());
    start(rt, state, 0, 1, &q());
    kill(rt, state, 0, 0, 0, &q());
    end_line(rt);
}

fn steps1_to_6(rt: &HostRuntime, state: &mut [u8]) {
    step1(rt, state);
    step2(rt, state);
    step3(rt, state);
    step4(rt, state);
    step5(rt, state);
    step6(rt, state);
}

fn steps7_to_12(rt: &HostRuntime, state: &mut [u8]) {
    step7(rt, state);
    step8(rt, state);
    step9(rt, state);
    step10(rt, state);
    step11(rt, state);
    step12(rt, state);
}

fn main(rt: HostRuntime) {
    let mut state = [0u8; STATE_LENGTH];
    fresh(&mut state);
    steps1_to_6(&rt, &mut state);
    steps7_to_12(&rt, &mut state);
    let mut refused = state;
    step13(&rt, &mut state, 4, u32::from(DONE));
    step13(&rt, &mut refused, 5, Refusal::NotGranted as u32);
    fresh(&mut state);
    relay(&rt, &mut state);
}
