//! Laws of the threads of sound images. The function here does nothing: its clauses are the laws.
ghost use Rattle.tx_events.specs.Thread.{Lawful};
ghost use Rattle.tx_code.specs.Images.{IsImage, ImageView};
ghost use Rattle.tx_code.specs.Sound.{Sound};
ghost use Rattle.vm_thread.specs.Threads.{Running, running, IsReached, at_main};

/// A thread with its image keeps the laws of threads, where the image is sound.
pub fn threads_keep_the_laws()
    ensures laws { Lawful Running IsReached running }
    ensures starts { (i : ImageView) → IsImage i → Sound i → IsReached (at_main i) }
{}
