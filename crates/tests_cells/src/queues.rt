//! Queues on one thread and on several: what no clause says of the calls.
ghost use Rattle.std.specs.Prelude.{◌≡◌, ◌≤◌, ◌+◌, IfOk};
ghost use Rattle.std.specs.List.{All};
ghost use Rattle.conn_queue.specs.Queues.{IsOf, pass_view};

use conn_queue::{ConnQueue, QPass};
use std::alloc::Global;
use std::rt::Clock;
use std::sync::Wait;
use std::thread::{self, Threads, join};
use std::time::Duration;
use txt_core::NoMemory;

/// An item that can't be copied.
#[derive(Drop)]
struct Ticket {
    number: u64,
}

/// A thread's part: the numbers that it puts, or those that it takes.
#[derive(Drop)]
struct Part {
    pass: QPass<Ticket>,
    first: u64,
    count: u64,
    pause: Duration,
    taken: Vec<u64>,
    memory: Result<(), NoMemory>,
}

impl Part {
    /// Puts its numbers, with a pause before each where there is one.
    fn put_numbers<R: Wait + Clock>(&mut self, rt: &R, queue: &ConnQueue<Ticket>)
        requires { IsOf queue.now self.old.pass }
        ensures { IsOf queue.now self.new.pass }
    {
        for number in self.first..self.first.saturating_add(self.count) {
            if !self.pause.is_zero() {
                thread::sleep(rt, self.pause);
            }
            put_once_there_is_room(rt, queue, &mut self.pass, number);
        }
    }

    /// Takes numbers until it takes an end mark.
    fn take_numbers<R: Wait>(&mut self, rt: &R, queue: &ConnQueue<Ticket>)
        requires { IsOf queue.now self.old.pass }
        ensures { IsOf queue.now self.new.pass }
    {
        for _ in rt.forever() {
            match queue.take(rt, &mut self.pass) {
                Some(ticket) => {
                    if self.taken.push(ticket.number).is_err() {
                        self.memory = Err(NoMemory);
                    }
                }
                None => return,
            }
        }
    }
}

/// Puts the number again and again while it is handed back.
fn put_once_there_is_room<R: Wait>(
    rt: &R,
    queue: &ConnQueue<Ticket>,
    pass: &mut QPass<Ticket>,
    number: u64,
)
    requires { IsOf queue.now pass.old }
    ensures { IsOf queue.now pass.new }
{
    for _ in rt.forever() {
        if queue.put(rt, pass, Ticket { number }).is_ok() {
            return;
        }
        thread::yield_now();
    }
    unreachable!()
}

/// What one exchange is made of: so many threads put so many numbers each, and as many take.
#[derive(Clone, Copy)]
struct Exchange {
    threads: u16,
    each: u64,
    pause: Duration,
}

/// A part for each of the threads of one side.
fn parts_of(
    alloc: Global,
    queue: &ConnQueue<Ticket>,
    pass: &mut QPass<Ticket>,
    exchange: Exchange,
) -> Result<Vec<Part>, NoMemory>
    requires queue { IsOf queue.now pass.old }
    requires units { exchange.threads + 2 ≤ (pass_view pass.old).units }
    ensures queue { IsOf queue.now pass.new }
    ensures units { IfOk result (λ parts.
        (pass_view pass.new).units + exchange.threads ≡ (pass_view pass.old).units) }
    ensures parts { IfOk result (λ parts. All (λ part. IsOf queue.now part.pass) parts.items) }
{
    let mut parts = Vec::new(alloc);
    for number in 0..exchange.threads {
        parts.push(Part {
            pass: queue.split(pass)?,
            first: u64::from(number).saturating_mul(exchange.each),
            count: exchange.each,
            pause: exchange.pause,
            taken: Vec::new(alloc),
            memory: Ok(()),
        })?;
    }
    Ok(parts)
}

/// Each part puts its numbers, and then the queue is closed for as many workers.
fn put_all<R: Threads + Wait + Clock + Sync>(
    rt: &R,
    queue: &ConnQueue<Ticket>,
    pass: &mut QPass<Ticket>,
    parts: &mut [Part],
    workers: u16,
)
    requires pass { IsOf queue.now pass.old }
    requires parts { All (λ part. IsOf queue.now part.pass) parts.old }
{
    let threads = parts.len().max(1);
    thread::for_each_mut(rt, parts, threads, &|_, part| part.put_numbers(rt, queue));
    queue.close(rt, pass, workers);
}

/// Each part takes numbers.
fn take_all<R: Threads + Wait + Sync>(rt: &R, queue: &ConnQueue<Ticket>, parts: &mut [Part])
    requires { All (λ part. IsOf queue.now part.pass) parts.old }
{
    let threads = parts.len().max(1);
    thread::for_each_mut(rt, parts, threads, &|_, part| part.take_numbers(rt, queue));
}

/// Some parts put beside others that take.
fn put_and_take<R: Threads + Wait + Clock + Sync>(
    rt: &R,
    queue: &ConnQueue<Ticket>,
    pass: &mut QPass<Ticket>,
    putting: &mut [Part],
    working: &mut [Part],
    workers: u16,
)
    requires pass { IsOf queue.now pass.old }
    requires putting { All (λ part. IsOf queue.now part.pass) putting.old }
    requires working { All (λ part. IsOf queue.now part.pass) working.old }
{
    join(
        rt,
        move ||
            requires { IsOf queue.now pass.now
                × All (λ part. IsOf queue.now part.pass) putting.now }
        { put_all(rt, queue, pass, putting, workers) },
        move ||
            requires { All (λ part. IsOf queue.now part.pass) working.now }
        { take_all(rt, queue, working) },
    );
}

/// What was taken, in order of size.
fn taken_by(alloc: Global, workers: Vec<Part>) -> Result<Vec<u64>, NoMemory> {
    let mut numbers = Vec::new(alloc);
    for worker in workers {
        worker.memory?;
        for number in worker.taken {
            numbers.push(number)?;
        }
    }
    numbers.sort()?;
    Ok(numbers)
}

/// The numbers that were taken of those that were put, in order of size.
fn numbers_of<R: Threads + Wait + Clock + Sync>(
    rt: &R,
    alloc: Global,
    exchange: Exchange,
) -> Result<Vec<u64>, NoMemory>
    requires { exchange.threads ≤ 16 }
{
    let (queue, mut pass) = ConnQueue::new(alloc, 8)?;
    let mut putters = parts_of(alloc, &queue, &mut pass, exchange)?;
    let mut workers = parts_of(alloc, &queue, &mut pass, exchange)?;
    put_and_take(
        rt,
        &queue,
        &mut pass,
        putters.as_mut_slice(),
        workers.as_mut_slice(),
        exchange.threads,
    );
    taken_by(alloc, workers)
}

/// Whether these are the numbers from 0 on, and so many.
fn are_all(numbers: &[u64], count: u64) -> bool {
    let mut each = numbers.len() as u64 == count;
    for (place, number) in numbers.iter().enumerate() {
        each = each && *number == place as u64;
    }
    each
}

/// Whether each number was taken once.
fn each_is_taken<R: Threads + Wait + Clock + Sync>(
    rt: &R,
    alloc: Global,
    exchange: Exchange,
) -> bool
    requires { exchange.threads ≤ 16 }
{
    let count = u64::from(exchange.threads).saturating_mul(exchange.each);
    match numbers_of(rt, alloc, exchange) {
        Ok(numbers) => are_all(numbers.as_slice(), count),
        Err(_) => false,
    }
}

/// Between one thread and another, four and four, and with more threads than processors.
#[test]
fn handed_over(rt: HostRuntime) {
    for threads in [1, 4, 16] {
        let exchange = Exchange {
            threads,
            each: 20_000 / u64::from(threads),
            pause: Duration::ZERO,
        };
        assert!(rt; each_is_taken(&rt, rt.alloc(), exchange));
    }
}

/// Each number is put so late that those who take have fallen asleep.
#[test]
fn sleepers_wake(rt: HostRuntime) {
    let exchange = Exchange {
        threads: 3,
        each: 20,
        pause: Duration::from_millis(5),
    };
    assert!(rt; each_is_taken(&rt, rt.alloc(), exchange));
}

/// A queue of one is full when one thread closes it, while another takes twice.
fn close_while_full<T: Drop + Send, R: Threads + Wait + Sync>(
    rt: &R,
    queue: &ConnQueue<T>,
    closer: QPass<T>,
    taker: QPass<T>,
) -> (Option<T>, Option<T>)
    requires { IsOf queue.now closer × IsOf queue.now taker }
{
    join(
        rt,
        move ||
            requires { IsOf queue.now closer }
        {
            let mut closer = closer;
            queue.close(rt, &mut closer, 1);
        },
        move || -> (Option<T>, Option<T>)
            requires { IsOf queue.now taker }
        {
            let mut taker = taker;
            (queue.take(rt, &mut taker), queue.take(rt, &mut taker))
        },
    )
    .1
}

/// What becomes of two puts into a queue of one, and what is taken while it is closed.
fn full_and_closed<R: Threads + Wait + Sync>(
    rt: &R,
    alloc: Global,
) -> Result<([Result<(), u64>; 2], (Option<u64>, Option<u64>)), NoMemory> {
    let (queue, mut pass) = ConnQueue::new(alloc, 1)?;
    let taker = queue.split(&mut pass)?;
    let puts = [queue.put(rt, &mut pass, 7), queue.put(rt, &mut pass, 8)];
    Ok((puts, close_while_full(rt, &queue, pass, taker)))
}

#[test]
fn room_for_one(rt: HostRuntime) {
    let came = full_and_closed(&rt, rt.alloc());
    assert!(rt; came == Ok(([Ok(()), Err(8)], (Some(7), None))));
}

/// What becomes of three puts by two passes into a queue of two, and of three takes, two of them when the
/// queue is closed.
fn on_one_thread<R: Wait>(
    rt: &R,
    alloc: Global,
) -> Result<([Result<(), u64>; 3], [Option<u64>; 3]), NoMemory> {
    let (queue, mut pass) = ConnQueue::new(alloc, 2)?;
    let mut other = queue.split(&mut pass)?;
    let first = queue.put(rt, &mut pass, 1);
    let second = queue.put(rt, &mut other, 2);
    queue.join(&mut other, pass);
    let third = queue.put(rt, &mut other, 3);
    let taken = queue.take(rt, &mut other);
    queue.close(rt, &mut other, 1);
    let later = queue.take(rt, &mut other);
    let last = queue.take(rt, &mut other);
    Ok(([first, second, third], [taken, later, last]))
}

#[test]
fn room_for_two(rt: HostRuntime) {
    let came = on_one_thread(&rt, rt.alloc());
    assert!(rt; came == Ok(([Ok(()), Ok(()), Err(3)], [Some(1), Some(2), None])));
}
