ghost use Rattle.std.specs.Prelude.{◌≡◌, ◌≢◌, ◌↔◌, map, string_bytes, IfSome};
ghost use Rattle.alg_host.specs.Host.{HasRisen};
ghost use Rattle.alg_words.specs.Jobs.{job_of};
ghost use Rattle.alg_run.specs.Asking.{steps_under, known_among, asked};
ghost use Rattle.alg_run.specs.Run.{Ends, AsksNothing, IsBad, IsReady, IsDone};
ghost use Rattle.alg_procedures.specs.Table.{table_step};

use alg_exts::{NumExt, SignExt};
use alg_host::Host;
use alg_procedures::Table;
use alg_run::{Status, run_by};
use std::alloc::Global;

/// What extends the procedures. A LIST of the words may switch them off by their names.
#[derive(Drop)]
pub struct Extensions {
    /// Each finds the values of some named functions; the first that is on and covers a function is asked.
    pub num: Vec<Box<dyn NumExt>>,
    /// Each finds the signs of some compounds.
    pub sign: Vec<Box<dyn SignExt>>,
}

/// Does all that the program does. `words` begins with the program's name.
///
/// A file that was loaded is read as a whole, and then reported command by command; what was done by the time a call on
/// the host fails, or memory runs out, is a beginning of what would have been done. What a script proves of its goal is
/// written into the certificate, where one is asked for, then handed to the host, and only then reported. For a check of a
/// certificate both files are loaded before anything is looked at.
pub fn run<H: Host>(alloc: Global, words: &[String], host: &mut H, exts: &Extensions) -> Status
    // the calls, the certificate, the goals handed over, the report and the complaint; or a beginning of them
    ensures answers { Ends (steps_under table_step (λ x. (⟦<dyn NumExt as NumExt>⟧ x.vtable).title x.value) (λ x f. (⟦<dyn NumExt as NumExt>⟧ x.vtable).covered x.value f) (λ x. (⟦<dyn SignExt as SignExt>⟧ x.vtable).heading x.value) (λ x f. (⟦<dyn SignExt as SignExt>⟧ x.vtable).handled x.value f) exts.now.num.items exts.now.sign.items) (asked (known_among (map (λ x. (⟦<dyn NumExt as NumExt>⟧ x.vtable).title x.value) exts.now.num.items) (map (λ x. (⟦<dyn SignExt as SignExt>⟧ x.vtable).heading x.value) exts.now.sign.items)) (job_of (map (λ w. string_bytes w) words.now))) result (H.complaint_faults host.old) (H.complaint_faults host.new) (H.told host.old) (H.told host.new) }
    ensures usage { result ≢ Status.Memory → (result ≡ Status.Usage ↔ AsksNothing (asked (known_among (map (λ x. (⟦<dyn NumExt as NumExt>⟧ x.vtable).title x.value) exts.now.num.items) (map (λ x. (⟦<dyn SignExt as SignExt>⟧ x.vtable).heading x.value) exts.now.sign.items)) (job_of (map (λ w. string_bytes w) words.now)))) }
    ensures kept { result ≢ Status.HostFailed → H.faults host.new ≡ H.faults host.old }
    ensures failed { result ≡ Status.HostFailed → HasRisen (H.faults host.old) (H.faults host.new) }
    // what is to be read is too long or isn't UTF-8, but for a fault of the host or want of memory
    ensures bad { IfSome (H.told host.old) (λ t. result ≢ Status.HostFailed → result ≢ Status.Memory → (result ≡ Status.BadInput ↔ IsBad (asked (known_among (map (λ x. (⟦<dyn NumExt as NumExt>⟧ x.vtable).title x.value) exts.now.num.items) (map (λ x. (⟦<dyn SignExt as SignExt>⟧ x.vtable).heading x.value) exts.now.sign.items)) (job_of (map (λ w. string_bytes w) words.now))) t)) }
    // what can be done is done, but for a fault of the host or want of memory
    ensures complete { IfSome (H.told host.old) (λ t. IsReady (asked (known_among (map (λ x. (⟦<dyn NumExt as NumExt>⟧ x.vtable).title x.value) exts.now.num.items) (map (λ x. (⟦<dyn SignExt as SignExt>⟧ x.vtable).heading x.value) exts.now.sign.items)) (job_of (map (λ w. string_bytes w) words.now))) t → ¬ (HasRisen (H.faults host.old) (H.faults host.new)) → IsDone result) }
{
    run_by::<H, Table>(alloc, words, host, &exts.num, &exts.sign)
}
