//! Outcomes that are known of each model, written out in `specs/Outcomes`: a test of the definitions.

ghost use Rattle.axiom_model.specs.declared.MemoryModel.{MemoryModel};
ghost use Rattle.axiom_model.specs.declared.MemoryModel.TheVariants.{Sc, Tso, Pso};
ghost use Rattle.axiom_model.specs.Cycles.{NoCycle};
ghost use Rattle.axiom_model.specs.WellMade.{WellMade};
ghost use Rattle.axiom_model.specs.Models.{GlobalEdge, Consistent};
ghost use Rattle.axiom_model.specs.Outcomes as outcomes;

/// Each of the executions fits a program: what a model forbids here, it forbids by its conditions
/// alone.
pub fn outcomes_are_well_made()
    ensures store_buffering { WellMade outcomes.shape outcomes.store_buffering }
    ensures fenced_store_buffering { WellMade outcomes.shape outcomes.fenced_store_buffering }
    ensures store_forwarding { WellMade outcomes.shape outcomes.store_forwarding }
    ensures message_passing { WellMade outcomes.shape outcomes.message_passing }
    ensures two_plus_two_writes { WellMade outcomes.shape outcomes.two_plus_two_writes }
    ensures load_buffering { WellMade outcomes.shape outcomes.load_buffering }
    ensures independent_reads { WellMade outcomes.shape outcomes.independent_reads }
    ensures read_read_coherence { WellMade outcomes.shape outcomes.read_read_coherence }
    ensures write_read_coherence { WellMade outcomes.shape outcomes.write_read_coherence }
    ensures write_write_coherence { WellMade outcomes.shape outcomes.write_write_coherence }
    ensures stale_after_create { WellMade outcomes.shape outcomes.stale_after_create }
    ensures stale_after_join { WellMade outcomes.shape outcomes.stale_after_join }
    ensures peeked_section { WellMade outcomes.shape outcomes.peeked_section }
    ensures open_section { WellMade outcomes.shape outcomes.open_section }
{}

/// Store buffering with both reads 0: the writes wait behind the reads, under TSO and PSO.
pub fn store_buffering()
    ensures sc { ¬ Consistent Sc outcomes.store_buffering }
    ensures tso { Consistent Tso outcomes.store_buffering }
    ensures pso { Consistent Pso outcomes.store_buffering }
{}

/// A fence between the write and the read of each thread forbids it.
pub fn fenced_store_buffering()
    ensures { (m : MemoryModel) → ¬ Consistent m outcomes.fenced_store_buffering }
{}

/// Store forwarding: a thread may read its own write before the others see it, under TSO and PSO.
pub fn store_forwarding()
    ensures sc { ¬ Consistent Sc outcomes.store_forwarding }
    ensures tso { Consistent Tso outcomes.store_forwarding }
    ensures pso { Consistent Pso outcomes.store_forwarding }
{}

/// Message passing with the stale read: the first write waits behind the second, under PSO alone.
pub fn message_passing()
    ensures sc { ¬ Consistent Sc outcomes.message_passing }
    ensures tso { ¬ Consistent Tso outcomes.message_passing }
    ensures pso { Consistent Pso outcomes.message_passing }
{}

/// Two threads that each write both cells, in opposite orders, and the first write of each is the
/// last of its cell: under PSO alone.
pub fn two_plus_two_writes()
    ensures sc { ¬ Consistent Sc outcomes.two_plus_two_writes }
    ensures tso { ¬ Consistent Tso outcomes.two_plus_two_writes }
    ensures pso { Consistent Pso outcomes.two_plus_two_writes }
{}

/// Load buffering: no model lets a read take a value from a write that waits for it.
pub fn load_buffering()
    ensures { (m : MemoryModel) → ¬ Consistent m outcomes.load_buffering }
{}

/// Independent reads of independent writes: all threads see the writes in one order, under each model.
pub fn independent_reads()
    ensures { (m : MemoryModel) → ¬ Consistent m outcomes.independent_reads }
{}

/// Two reads of one cell that see its writes in the wrong order: under no model.
pub fn read_read_coherence()
    ensures { (m : MemoryModel) → ¬ Consistent m outcomes.read_read_coherence }
{}

/// A read of the old value behind the thread's own write: under no model.
pub fn write_read_coherence()
    ensures { (m : MemoryModel) → ¬ Consistent m outcomes.write_read_coherence }
{}

/// Two writes of a thread to one cell that take effect in the wrong order: under no model.
pub fn write_write_coherence()
    ensures { (m : MemoryModel) → ¬ Consistent m outcomes.write_write_coherence }
{}

/// A thread sees what was written before its creation, and who joins it sees what it wrote.
pub fn stale_reads_of_threads()
    ensures after_create { (m : MemoryModel) → ¬ Consistent m outcomes.stale_after_create }
    ensures after_join { (m : MemoryModel) → ¬ Consistent m outcomes.stale_after_join }
{}

/// A read between the two writes of another thread's section closes no cycle of events, only one of
/// blocks.
pub fn peeked_section()
    ensures events { NoCycle (GlobalEdge Sc outcomes.peeked_section) }
    ensures blocks { (m : MemoryModel) → ¬ Consistent m outcomes.peeked_section }
{}

/// A section may read its own write, and may be left open by a run that stops in it.
pub fn open_section()
    ensures { (m : MemoryModel) → Consistent m outcomes.open_section }
{}
