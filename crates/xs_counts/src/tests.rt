//! What the program and `top` answer: scripts whose histories and counts are known from elsewhere, and sources and sinks that fail.

use crate::call::counts_call;
use std::alloc::{AllocError, Global};
use std::sync::Wait;
use std::sync::atomic::AtomicBool;
use std::sync::atomic::Ordering::SeqCst;
use std::test::Fail;
use std::thread;
use std::thread::Threads;
use xs_io::{MemSink, MemSource};
use xs_machine::{Gate, OpenGate, Point};
use xs_outside::Status;
use xs_top::{processors, top};

/// A script a line, and behind `|` the status and what is printed for it, each with `/` for a line feed. The answers come from a
/// program that shares nothing with this one. In order:
///
/// - two tasks with one register
/// - a kernel thread between two turns of a task: the second is a skip
/// - a kernel section between them: it is a load
/// - a task that comes back to a processor whose owner mark is stale
/// - MXCSR that changed where no XMM register did, and a task that never set it
/// - a task that runs on two processors, whose kernel section leaves no owner mark
/// - PKRU is the task's own where the restore is skipped
/// - a child that is born with its parent's registers, and changes none of them
/// - the frame of a signal, as the handler finds it
/// - a frame whose second magic word is wrong: the registers that it has besides x87 and SSE are left out
/// - a frame with a reserved byte in its header: the return kills the task
/// - a frame that is told to be a byte longer than the task's registers
/// - two signals, one of them while a handler runs
/// - a signal that is sent by a line of a handler
/// - a return outside of a handler
/// - a stopped child, whose XMM0 its parent changes on another processor
/// - sets that are refused: by their length, and by the header of their bytes
/// - the marks that a stopped child shows: those that its parent gave, and those of its next turn
/// - what both sets show of a child that did nothing, which its parent's end lets go on
/// - a parent that waits until its child has ended, and then reads none of its registers
/// - a child's registers read before any wait for it
/// - a stop in a handler
/// - one Large area for three tasks: one gets it, one finds none, and one has no leave to ask for it
/// - a fork of a task with tiles: its child has its tile configuration and its leave, and grows by itself
/// - a Large area that comes back at a task's end, and that the next task gets without the tiles of the first
const CASES: &str = "\
xstate 1/machine amx/cpus 1/quantum 1/large 0/task a/set xmm0 11111111111111111111111111111111/get xmm0/end/task b/set xmm0 22222222222222222222222222222222/get xmm0/end/|\
0/start a 0 load -/local a 7 -/start b 0 load -/local b 11 -/start a 0 load -/local a 8 =11111111111111111111111111111111/start b 0 load -/local b 12 =22222222222222222222222222222222/start a 0 load -/end a/start b 0 load -/end b/\
%%/0 6 6 4 5822093129091926498/
xstate 1/machine amx/cpus 1/quantum 2/large 0/task a/set k0 0102030405060708/yield/get k0/end/kthread k/yield/end/|\
0/start a 0 load -/local a 7 -/local a 8 -/start k 0 kern -/local k 12 -/start a 0 skip -/local a 9 =0102030405060708/end a/start k 0 kern -/end k/\
%%/0 1 2 2 16518842801338878299/
xstate 1/machine amx/cpus 1/quantum 2/large 0/task a/set k0 0102030405060708/yield/get k0/end/kthread k/ksec aa/end/|\
0/start a 0 load -/local a 7 -/local a 8 -/start k 0 kern -/local k 12 -/end k/start a 0 load -/local a 9 =0102030405060708/end a/\
%%/0 2 2 3 6580323023799235409/
xstate 1/machine amx/cpus 2/quantum 1/large 0/sched 0 0 1 1 0 0/task a/set k0 0100000000000000/get k0/get k0/end/|\
0/start a 0 load -/local a 8 -/start a 1 load -/local a 9 =0100000000000000/start a 0 load -/local a 10 =0100000000000000/start a 0 skip -/end a/\
%%/0 2 3 2 6891828200342487249/1 1 1 1 7992534180181725982/
xstate 1/machine amx/cpus 1/quantum 1/large 0/task a/set mxcsr a01f0000/get mxcsr/end/task b/get mxcsr/end/|\
0/start a 0 load -/local a 7 -/start b 0 load -/local b 11 =801f0000/start a 0 load -/local a 8 =a01f0000/start b 0 load -/end b/start a 0 load -/end a/\
%%/0 5 5 3 5531008925084418257/
xstate 1/machine amx/cpus 2/quantum 1/large 0/sched 0 0 1 1/task a/ksec 01/get xmm0/end/|\
0/start a 0 load -/local a 8 -/start a 1 load -/local a 9 =00000000000000000000000000000000/start a 0 load -/end a/\
%%/0 2 2 1 2725163124116183798/1 1 1 1 10330306826335963165/
xstate 1/machine amx/cpus 1/quantum 2/large 0/task a/set pkru 0c000000/yield/get pkru/end/kthread k/yield/end/|\
0/start a 0 load -/local a 7 -/local a 8 -/start k 0 kern -/local k 12 -/start a 0 skip -/local a 9 =0c000000/end a/start k 0 kern -/end k/\
%%/0 1 2 0 0/
xstate 1/machine amx/cpus 1/quantum 8/large 0/task p/set xmm0 33333333333333333333333333333333/fork c/set xmm0 44444444444444444444444444444444/get xmm0/end/child c/get xmm0/get pkru/end/|\
0/start p 0 load -/local p 7 -/outer p 8 -/start c 0 load -/local c 13 =33333333333333333333333333333333/local c 14 =54555555/end c/start p 0 load -/local p 9 -/local p 10 =44444444444444444444444444444444/end p/\
%%/0 3 3 4 4544602824215299134/
xstate 1/machine amx/cpus 1/quantum 8/large 0/task a/kill a 10/handler/peek 464 20/peek 512 8/peek 2816 4/get pkru/sigreturn/end/|\
0/start a 0 load -/outer a 7 +0/start a 0 skip 10/local a 9 =53585046040b0000e702020000000000000b0000/local a 10 =0302000000000000/local a 11 =45585046/local a 12 =54555555/local a 13 full/end a/\
%%/0 3 3 0 0/
xstate 1/machine amx/cpus 1/quantum 8/large 0/task a/set ymmh0 77777777777777777777777777777777/kill a 10/get ymmh0/get pkru/handler/poke 2816 00/sigreturn/end/|\
0/start a 0 load -/local a 7 -/outer a 8 +0/start a 0 skip 10/local a 12 -/local a 13 legacy/local a 9 =00000000000000000000000000000000/local a 10 =00000000/end a/\
%%/0 3 3 2 17129131923698555817/
xstate 1/machine amx/cpus 1/quantum 8/large 0/task a/kill a 10/handler/poke 528 01/sigreturn/end/|\
1/start a 0 load -/outer a 7 +0/start a 0 skip 10/local a 9 -/kill a 11 frame-reserved/\
%%/0 3 3 0 0/
xstate 1/machine amx/cpus 1/quantum 8/large 0/task a/kill a 10/handler/poke 480 01/sigreturn/end/|\
0/start a 0 load -/outer a 7 +0/start a 0 skip 10/local a 9 -/local a 10 legacy/end a/\
%%/0 3 3 0 0/
xstate 1/machine amx/cpus 1/quantum 1/large 0/task a/get xmm0/get xmm0/handler/yield/sigreturn/end/task b/kill a 12/kill a 10/end/|\
0/start a 0 load -/local a 7 =00000000000000000000000000000000/start b 0 load -/outer b 14 +0/start a 0 load 12/local a 10 -/start b 0 load -/outer b 15 +0/start a 0 load -/local a 11 full/start b 0 load -/end b/\
start a 0 load 10/local a 10 -/start a 0 skip -/local a 11 full/start a 0 skip -/local a 8 =00000000000000000000000000000000/start a 0 skip -/end a/\
%%/0 11 12 2 8544434683230355998/
xstate 1/machine amx/cpus 1/quantum 8/large 0/task a/handler/kill a 10/sigreturn/end/|\
2/refused 8 outer-in-handler/
xstate 1/machine amx/cpus 1/quantum 8/large 0/task a/sigreturn/end/|\
2/refused 7 bad-line/
xstate 1/machine amx/cpus 2/quantum 8/large 0/sched 1 1 0 0 1 1 1 1 1 1 1 1 0 0/task p/fork c/wait c/getregs c fx/bpoke 160 ff/setregs c fx 512/cont c/end/child c/stop/get xmm0/end/|\
0/start p 1 load -/outer p 8 -/start c 0 load -/outer c 16 held/start p 1 skip -/outer p 9 stopped/start p 1 skip -/outer p 10 +512/start p 1 skip -/local p 11 -/outer p 12 +512/start p 1 skip -/outer p 13 +0/start c 0 load -/local c 17 =ff000000000000000000000000000000/end c/start p 1 skip -/end p/\
%%/0 2 2 1 15655959378106737976/1 1 6 0 0/
xstate 1/machine amx/cpus 1/quantum 8/large 0/task p/fork c/wait c/setregs c xstate 11007/getregs c xstate/bpoke 514 04/setregs c xstate 11008/cont c/end/child c/stop/end/|\
0/start p 0 load -/outer p 7 -/start c 0 load -/outer c 16 held/start p 0 load -/outer p 8 stopped/start p 0 skip -/outer p 9 !14/start p 0 skip -/outer p 10 +11008/start p 0 skip -/local p 11 -/outer p 12 !22/start p 0 skip -/outer p 13 +0/start c 0 load -/end c/start p 0 load -/end p/\
%%/0 5 9 0 0/
xstate 1/machine amx/cpus 1/quantum 8/large 0/task p/fork c/wait c/getregs c xstate/bpoke 512 04/setregs c xstate 11008/getregs c xstate/bpeek 512 2/cont c/wait c/getregs c xstate/bpeek 512 2/cont c/end/child c/stop/stop/end/|\
0/start p 0 load -/outer p 7 -/start c 0 load -/outer c 21 held/start p 0 load -/outer p 8 stopped/start p 0 skip -/outer p 9 +11008/start p 0 skip -/local p 10 -/outer p 11 +11008/start p 0 skip -/outer p 12 +11008/start p 0 skip -/local p 13 =0402/outer p 14 +0/start c 0 load -/outer c 22 held/start p 0 load -/outer p 15 stopped/start p 0 skip -/outer p 16 +11008/start p 0 skip -/local p 17 =0002/outer p 18 +0/start c 0 load -/end c/start p 0 load -/end p/\
%%/0 7 13 0 0/
xstate 1/machine amx/cpus 1/quantum 8/large 0/task p/fork c/wait c/getregs c xstate/bpeek 464 8/bpeek 24 8/getregs c fx/bpeek 464 8/end/child c/stop/end/|\
0/start p 0 load -/outer p 7 -/start c 0 load -/outer c 16 held/start p 0 load -/outer p 8 stopped/start p 0 skip -/outer p 9 +11008/start p 0 skip -/local p 10 =e702060000000000/local p 11 =801f0000ffff0000/outer p 12 +512/start p 0 skip -/local p 13 =0000000000000000/end p/start c 0 load -/end c/\
%%/0 4 7 0 0/
xstate 1/machine amx/cpus 1/quantum 8/large 0/task p/fork c/wait c/getregs c fx/end/child c/yield/end/|\
0/start p 0 load -/outer p 7 -/start c 0 load -/local c 12 -/start p 0 load -/outer p 8 blocked/start c 0 load -/end c/start p 0 load -/outer p 8 ended/start p 0 skip -/outer p 9 !3/start p 0 skip -/end p/\
%%/0 5 7 0 0/
xstate 1/machine amx/cpus 1/quantum 8/large 0/task a/fork b/getregs b fx/end/child b/end/|\
2/refused 8 not-awaited/
xstate 1/machine amx/cpus 1/quantum 8/large 0/task a/handler/stop/sigreturn/end/|\
2/refused 8 outer-in-handler/
xstate 1/machine amx/cpus 1/quantum 8/large 1/task a/perm 9/perm 19/perm 18/perm 18/get tmm0.0/end/task b/perm 18/get tmm0.0/end/task c/get tmm0.0/end/|\
1/start a 0 load -/local a 7 !95/local a 8 !22/local a 9 +0/local a 10 +0/grow a/start b 0 load -/local b 14 +0/kill b 11 area/start c 0 load -/kill c 4 permission/start a 0 load -/local a 11 =00000000000000000000000000000000000000000000000000000000000000000000000000000000000000000000000000000000000000000000000000000000/end a/\
%%/0 4 4 1 12430333200728531178/
xstate 1/machine amx/cpus 1/quantum 8/large 2/task p/perm 18/set tilecfg 01010101010101010101010101010101010101010101010101010101010101010101010101010101010101010101010101010101010101010101010101010101/set tmm0.0 5a5a5a5a5a5a5a5a5a5a5a5a5a5a5a5a5a5a5a5a5a5a5a5a5a5a5a5a5a5a5a5a5a5a5a5a5a5a5a5a5a5a5a5a5a5a5a5a5a5a5a5a5a5a5a5a5a5a5a5a5a5a5a5a/fork c/get tmm0.0/end/child c/get tilecfg/get tmm0.0/end/|\
0/start p 0 load -/local p 7 +0/grow p/start p 0 load -/local p 8 -/local p 9 -/outer p 10 -/start c 0 load -/local c 14 =01010101010101010101010101010101010101010101010101010101010101010101010101010101010101010101010101010101010101010101010101010101/grow c/start p 0 load -/local p 11 =5a5a5a5a5a5a5a5a5a5a5a5a5a5a5a5a5a5a5a5a5a5a5a5a5a5a5a5a5a5a5a5a5a5a5a5a5a5a5a5a5a5a5a5a5a5a5a5a5a5a5a5a5a5a5a5a5a5a5a5a5a5a5a5a/end p/start c 0 load -/local c 15 =00000000000000000000000000000000000000000000000000000000000000000000000000000000000000000000000000000000000000000000000000000000/end c/\
%%/0 5 5 5 96250770663094126/
xstate 1/machine amx/cpus 1/quantum 8/large 1/task a/perm 18/set tmm7.15 01010101010101010101010101010101010101010101010101010101010101010101010101010101010101010101010101010101010101010101010101010101/end/task b/perm 18/yield/yield/get tmm7.15/end/|\
0/start a 0 load -/local a 7 +0/grow a/start b 0 load -/local b 11 +0/local b 12 -/start a 0 load -/local a 8 -/end a/start b 0 load -/local b 13 -/start b 0 skip -/grow b/start b 0 load -/local b 14 =00000000000000000000000000000000000000000000000000000000000000000000000000000000000000000000000000000000000000000000000000000000/end b/\
%%/0 5 6 2 3528252337664512281/
";

/// The status and what is printed for a script, with `/` for each line feed.
fn answer_of(alloc: Global, script: &str) -> Result<String, AllocError> {
    let text = script.replace(alloc, "/", "\n")?;
    let input = Vec::from_slice(alloc, text.as_bytes())?;
    let mut source = MemSource::new(input, Vec::new(alloc));
    let mut sink = MemSink::open(alloc, 1000, Vec::new(alloc))?;
    let status = counts_call(alloc, &mut source, &mut sink, &mut processors(alloc)?);
    let printed = String::from_utf8_lossy(alloc, sink.bytes())?;
    let answer = format!(in alloc; "{}\n{printed}", status.code())?;
    answer.replace(alloc, "\n", "/")
}

#[test]
fn scripts_are_counted(rt: HostRuntime) -> Result<(), Fail> {
    let mut cases = 0u32;
    for line in CASES.lines() {
        let (script, wanted) = line.split_once('|').unwrap_or((line, ""));
        let answer = answer_of(rt.alloc(), script)?;
        assert_eq!(rt; answer.as_str(), wanted);
        cases = cases.saturating_add(1);
    }
    assert!(rt; cases == 25);
    Ok(())
}

/// A task that sends itself 600 signals, each for a handler of 1,001 lines: a run might have four events for each line of the body,
/// two for each line of a handler that a signal begins, and eight for the task.
#[test]
fn too_many_events_are_refused(rt: HostRuntime) -> Result<(), Fail> {
    let alloc = rt.alloc();
    let kills = "kill a 10/".repeat(alloc, 600)?;
    let yields = "yield/".repeat(alloc, 1000)?;
    let script = format!(in alloc;
        "xstate 1/machine amx/cpus 1/quantum 8/large 0/task a/{kills}handler/{yields}sigreturn/end/"
    )?;
    let answer = answer_of(alloc, script.as_str())?;
    assert_eq!(rt; answer.as_str(), "2/refused 0 too-much 1203608/");
    Ok(())
}

const SCRIPT: &str = "xstate 1\nmachine amx\ncpus 1\nquantum 8\nlarge 0\ntask a\nget xmm0\nend\n";

const HISTORY: &[u8] = b"start a 0 load -\nlocal a 7 =00000000000000000000000000000000\nend a\n";

/// Runs the script over a source and a sink in memory: the read and the write of these numbers fail, none where the number
/// is 0, and the sink has room for so many bytes. Answers the status, and how many bytes of the history were written: none
/// where other bytes were.
fn run_with<T: Threads + Wait + Sync>(
    threads: &T,
    alloc: Global,
    read: u64,
    write: u64,
    room: usize,
) -> Result<(Status, Option<usize>), AllocError> {
    let words = vec![in alloc; String::from_str(alloc, "run")?]?;
    let bytes = Vec::from_slice(alloc, SCRIPT.as_bytes())?;
    let mut source = MemSource::new(bytes, vec![in alloc; read]?);
    let mut sink = MemSink::open(alloc, room, vec![in alloc; write]?)?;
    let mut procs = processors(alloc)?;
    let status = top(
        threads,
        alloc,
        &words,
        &mut source,
        &mut sink,
        &mut procs,
        &OpenGate,
    );
    let written = sink.bytes();
    let is_front = HISTORY.starts_with(written);
    Ok((status, is_front.then_some(written.len())))
}

#[test]
fn faults_are_told(rt: HostRuntime) -> Result<(), Fail> {
    for (read, write, room, status, written) in [
        (0, 0, 100, Status::Done, 67),
        (1, 0, 100, Status::ReadFault, 0),
        (2, 0, 100, Status::ReadFault, 0),
        (0, 1, 100, Status::WriteFault, 0),
        (0, 3, 100, Status::WriteFault, 61),
        (0, 0, 30, Status::WriteFault, 30),
        (0, 0, 66, Status::WriteFault, 66),
    ] {
        let answer = run_with(&rt, rt.alloc(), read, write, room)?;
        assert_eq!(rt; answer, (status, Some(written)));
    }
    Ok(())
}

/// Two tasks on two processors. The first turn of each processor waits for that of the other.
const PAIR: &str = "\
xstate 1
machine amx
cpus 2
quantum 1
large 0
task a
set xmm0 11111111111111111111111111111111
get xmm0
end
task b
set xmm0 22222222222222222222222222222222
get xmm0
end
";

/// Holds a processor that took its first turn until the other one did too, or for as many turns of its loop as the limit.
#[derive(Drop)]
struct Meeting {
    came: [AtomicBool; 2],
}

const LIMIT: u32 = 10_000_000;

impl Gate for Meeting {
    fn at(&self, cpu: u32, point: Point) {
        if cpu > 1 || point != Point::Took {
            return;
        }
        let cpu = cpu as usize;
        self.came[cpu].store(true, SeqCst);
        'meets: for _ in 0..LIMIT {
            if self.came[1 - cpu].load(SeqCst) {
                break;
            }
            thread::yield_now();
        }
    }
}

/// What the program answers to this word and input, at this gate.
fn answer_at<T: Threads + Wait + Sync, G: Gate + Sync>(
    threads: &T,
    alloc: Global,
    word: &str,
    input: &[u8],
    gate: &G,
) -> Result<(Status, Vec<u8>), AllocError> {
    let words = vec![in alloc; String::from_str(alloc, word)?]?;
    let mut source = MemSource::new(Vec::from_slice(alloc, input)?, Vec::new(alloc));
    let mut sink = MemSink::open(alloc, 1000, Vec::new(alloc))?;
    let mut procs = processors(alloc)?;
    let status = top(
        threads,
        alloc,
        &words,
        &mut source,
        &mut sink,
        &mut procs,
        gate,
    );
    Ok((status, Vec::from_slice(alloc, sink.bytes())?))
}

/// Whatever their order is, both processors have a turn at once, and `check` finds the history legal.
#[test]
fn two_processors_run_at_once(rt: HostRuntime) -> Result<(), Fail> {
    let alloc = rt.alloc();
    let meeting = Meeting {
        came: [AtomicBool::new(false), AtomicBool::new(false)],
    };
    let (status, history) = answer_at(&rt, alloc, "run", PAIR.as_bytes(), &meeting)?;
    let [one, other] = &meeting.came;
    let met = one.load(SeqCst) && other.load(SeqCst);
    let mut input = Vec::from_slice(alloc, PAIR.as_bytes())?;
    input.extend_from_slice(b"%%\n")?;
    input.extend_from_slice(&history)?;
    let (verdict, _) = answer_at(&rt, alloc, "check", &input, &OpenGate)?;
    assert_eq!(rt; (status, met, verdict), (Status::Done, true, Status::Done));
    Ok(())
}
