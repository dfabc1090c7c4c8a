//! A gate is told who comes.

use crate::desk::Desk;
use crate::site::{GET_HI, HI, WORKER, on_desk};
use crate::tests::repeated;
use crate::wire::{Told, Wire, no_pages};
use outside::Gate;
use std::alloc::Global;
use std::sync::Wait;
use std::sync::atomic::{AtomicBool, AtomicU64, Ordering};
use worker::End;

/// A gate that notes how often it was entered, and whether each time by the worker and with the place that
/// it expects.
#[derive(Drop)]
struct NotingGate {
    entered: AtomicU64,
    right: AtomicBool,
}

impl Gate for NotingGate {
    fn enter<R: Wait>(&self, _rt: &R, worker: u16, request: u64) {
        let place = self.entered.fetch_add(1, Ordering::SeqCst);
        if worker != WORKER || request != place {
            self.right.store(false, Ordering::SeqCst);
        }
    }
}

/// Serves what comes on a connection.
fn told_at<R: Wait, G: Gate>(
    rt: &R,
    alloc: Global,
    desk: &mut Desk<'_>,
    input: &[u8],
    gate: &G,
) -> Told {
    let mut pages = no_pages(alloc);
    desk.serve_at(rt, alloc, Wire::of(input), &mut pages, gate)
}

/// Serves three requests of one connection, and tells whether they were served to the end.
fn serves_three<R: Wait, G: Gate>(rt: &R, alloc: Global, desk: &mut Desk<'_>, gate: &G) -> bool {
    let input = repeated(alloc, GET_HI, 3);
    let told = told_at(rt, alloc, desk, input.bytes(), gate);
    told.end == End::Ended && told.count == 3
}

#[test]
fn a_gate_is_told_who_comes(rt: HostRuntime) {
    let gate = NotingGate {
        entered: AtomicU64::new(0),
        right: AtomicBool::new(true),
    };
    let alloc = rt.alloc();
    let served = on_desk(
        &rt,
        alloc,
        &[HI],
        |desk| serves_three(&rt, alloc, desk, &gate),
    );
    assert!(rt; served == Some(true));
    assert!(rt; gate.entered.load(Ordering::SeqCst) == 3);
    assert!(rt; gate.right.load(Ordering::SeqCst));
}
