use std::hint::spin_loop;
use std::sync::atomic::AtomicBool;
use std::sync::atomic::Ordering::SeqCst;

/// Whether a flag is seen raised, within a billion looks: many times what a thread needs to get its turn on a busy machine.
pub fn seen(flag: &AtomicBool) -> bool {
    for _ in 0..1_000_000_000u32 {
        if flag.load(SeqCst) {
            return true;
        }
        spin_loop();
    }
    false
}
