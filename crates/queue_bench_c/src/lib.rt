//! The runs of `queue_bench` under their names for C.
#![tactic(auto)]

use calendar_queue::CalendarQueue;
use heap_queue::HeapQueue;
use queue_bench::show::Beside;
use queue_bench::{Run, mixed, show};

// A name for C stands for one function without parameters for types, so the five stand apart.

/// The mixed run on the heap.
#[unsafe(no_mangle)]
pub extern "C" fn queue_bench_mixed_heap(from: u64, slots: u16, rounds: u32) -> u64 {
    mixed::run(
        &mut HeapQueue::new(),
        Run {
            from,
            slots,
            rounds,
        },
    )
}

/// The mixed run on the calendar.
#[unsafe(no_mangle)]
pub extern "C" fn queue_bench_mixed_calendar(from: u64, slots: u16, rounds: u32) -> u64 {
    mixed::run(
        &mut CalendarQueue::new(),
        Run {
            from,
            slots,
            rounds,
        },
    )
}

/// The mixed run without a queue: what drawing slots and moments costs.
#[unsafe(no_mangle)]
pub extern "C" fn queue_bench_mixed_none(from: u64, slots: u16, rounds: u32) -> u64 {
    mixed::draws(Run {
        from,
        slots,
        rounds,
    })
}

/// The show's run on the heap.
#[unsafe(no_mangle)]
pub extern "C" fn queue_bench_show_heap(
    from: u64,
    slots: u16,
    rounds: u32,
    asks: u32,
    idles: u32,
) -> u64 {
    show::run(
        &mut HeapQueue::new(),
        Run {
            from,
            slots,
            rounds,
        },
        Beside { asks, idles },
    )
}

/// The show's run on the calendar.
#[unsafe(no_mangle)]
pub extern "C" fn queue_bench_show_calendar(
    from: u64,
    slots: u16,
    rounds: u32,
    asks: u32,
    idles: u32,
) -> u64 {
    show::run(
        &mut CalendarQueue::new(),
        Run {
            from,
            slots,
            rounds,
        },
        Beside { asks, idles },
    )
}
