ghost use Rattle.std.specs.Prelude.{◌≡◌, ◌≢◌, ◌≤◌, ◌↔◌, map, string_bytes, IfSome};
ghost use Rattle.alg_host.specs.Host.{HasRisen};
ghost use Rattle.alg_check.specs.Faults.{CountsFaults};
ghost use Rattle.alg_words.specs.Words.{text_in};
ghost use Rattle.alg_words.specs.Jobs.{job_of, Prove, Demo};
ghost use Rattle.alg_exts.specs.Covers.{IsEven};
ghost use Rattle.alg_steps.specs.Calling.{cover_of};
ghost use Rattle.alg_run.specs.Complaining.{Complaint};
ghost use Rattle.alg_run.specs.Asking.{steps_under, known_among, asked};
ghost use Rattle.alg_run.specs.Run.{Works, Proves, Demonstrates, Answers, Ends, AsksNothing, IsBad, IsReady, IsDone, complaint_of};

use crate::checking::check;
use crate::demonstration::text_of_demonstration;
use crate::events::Stop;
use crate::files::do_text;
use crate::status::{Ending, Status};
use alg_exts::{Exts, ListFault, NumExt, SignExt, left_on};
use alg_host::{Host, LoadFault};
use alg_steps::Procedures;
use alg_words::{Job, Memory, read_words};
use std::alloc::Global;

const MOST_BYTES: u64 = 1 << 24;

// The goals of a file.
fn prove<H: Host, P: Procedures>(
    alloc: Global,
    file: &str,
    cert: Option<&str>,
    exts: &Exts<'_>,
    host: &mut H,
) -> Ending
    requires { IsEven exts.now.num.now exts.now.num_on.now exts.now.sign.now exts.now.sign_on.now }
    ensures answers { Works (H.told host.old) (H.told host.new) (Proves (P.step (cover_of (λ x f. (⟦<dyn NumExt as NumExt>⟧ x.vtable).covered x.value f) (λ x f. (⟦<dyn SignExt as SignExt>⟧ x.vtable).handled x.value f) exts.now.num.now exts.now.num_on.now exts.now.sign.now exts.now.sign_on.now)) file.now (text_in cert.entry) result) }
    ensures no_usage { result ≢ Ending.Usage }
    ensures faults { CountsFaults Ending.HostFailed result (H.faults host.old) (H.faults host.new) (H.complaint_faults host.old) (H.complaint_faults host.new) }
{
    let bytes = match host.load(alloc, file, MOST_BYTES) {
        Ok(bytes) => bytes,
        Err(LoadFault::Failed) => return Ending::HostFailed,
        Err(LoadFault::TooLong) => return Ending::TooLong,
        Err(LoadFault::Memory) => return Ending::Memory,
    };
    let text = match str::from_utf8(&bytes) {
        Ok(text) => text,
        Err(_) => return Ending::NotText,
    };
    match do_text::<H, P>(alloc, text, exts, cert, true, host) {
        Ok(all_closed) => Ending::Done { all_closed },
        Err(Stop::HostFailed) => Ending::HostFailed,
        Err(Stop::Memory) => Ending::Memory,
    }
}

// The goals of the demonstration.
fn demonstrate<H: Host, P: Procedures>(
    alloc: Global,
    count: u32,
    exts: &Exts<'_>,
    host: &mut H,
) -> Ending
    requires few { count ≤ 10000 }
    requires even { IsEven exts.now.num.now exts.now.num_on.now exts.now.sign.now exts.now.sign_on.now }
    ensures answers { Works (H.told host.old) (H.told host.new) (λ t d. Demonstrates (P.step (cover_of (λ x f. (⟦<dyn NumExt as NumExt>⟧ x.vtable).covered x.value f) (λ x f. (⟦<dyn SignExt as SignExt>⟧ x.vtable).handled x.value f) exts.now.num.now exts.now.num_on.now exts.now.sign.now exts.now.sign_on.now)) count result d) }
    ensures no_usage { result ≢ Ending.Usage }
    ensures faults { CountsFaults Ending.HostFailed result (H.faults host.old) (H.faults host.new) (H.complaint_faults host.old) (H.complaint_faults host.new) }
{
    let text = match text_of_demonstration(alloc, count) {
        Ok(text) => text,
        Err(_) => return Ending::Memory,
    };
    match do_text::<H, P>(alloc, text.as_str(), exts, None, false, host) {
        Ok(all_closed) => Ending::Done { all_closed },
        Err(Stop::HostFailed) => Ending::HostFailed,
        Err(Stop::Memory) => Ending::Memory,
    }
}

fn prove_without<H: Host, P: Procedures>(
    alloc: Global,
    file: &str,
    cert: Option<&str>,
    without: Option<&str>,
    num: &[Box<dyn NumExt>],
    sign: &[Box<dyn SignExt>],
    host: &mut H,
) -> Ending
    ensures answers { Works (H.told host.old) (H.told host.new) (Answers (steps_under P.step (λ x. title x) (λ x f. covered x f) (λ x. heading x) (λ x f. handled x f) num.now sign.now) (asked (known_among (map (λ x. title x) num.now) (map (λ x. heading x) sign.now)) (Prove file.now (text_in cert.entry) (text_in without.entry))) result) }
    ensures usage { result ≢ Ending.Memory → (result ≡ Ending.Usage ↔ AsksNothing (asked (known_among (map (λ x. title x) num.now) (map (λ x. heading x) sign.now)) (Prove file.now (text_in cert.entry) (text_in without.entry)))) }
    ensures faults { CountsFaults Ending.HostFailed result (H.faults host.old) (H.faults host.new) (H.complaint_faults host.old) (H.complaint_faults host.new) }
{
    match left_on(alloc, num, sign, without) {
        Ok(switches) => {
            let exts = Exts {
                num,
                num_on: &switches.num,
                sign,
                sign_on: &switches.sign,
            };
            let ending = prove::<H, P>(alloc, file, cert, &exts, host);
            let Exts {
                num: _num,
                num_on: _num_on,
                sign: _sign,
                sign_on: _sign_on,
            } = exts;
            ending
        }
        Err(ListFault::Unknown) => Ending::Usage,
        Err(ListFault::Memory) => Ending::Memory,
    }
}

fn demonstrate_without<H: Host, P: Procedures>(
    alloc: Global,
    count: u32,
    without: Option<&str>,
    num: &[Box<dyn NumExt>],
    sign: &[Box<dyn SignExt>],
    host: &mut H,
) -> Ending
    requires { count ≤ 10000 }
    ensures answers { Works (H.told host.old) (H.told host.new) (Answers (steps_under P.step (λ x. title x) (λ x f. covered x f) (λ x. heading x) (λ x f. handled x f) num.now sign.now) (asked (known_among (map (λ x. title x) num.now) (map (λ x. heading x) sign.now)) (Demo count (text_in without.entry))) result) }
    ensures usage { result ≢ Ending.Memory → (result ≡ Ending.Usage ↔ AsksNothing (asked (known_among (map (λ x. title x) num.now) (map (λ x. heading x) sign.now)) (Demo count (text_in without.entry)))) }
    ensures faults { CountsFaults Ending.HostFailed result (H.faults host.old) (H.faults host.new) (H.complaint_faults host.old) (H.complaint_faults host.new) }
{
    match left_on(alloc, num, sign, without) {
        Ok(switches) => {
            let exts = Exts {
                num,
                num_on: &switches.num,
                sign,
                sign_on: &switches.sign,
            };
            let ending = demonstrate::<H, P>(alloc, count, &exts, host);
            let Exts {
                num: _num,
                num_on: _num_on,
                sign: _sign,
                sign_on: _sign_on,
            } = exts;
            ending
        }
        Err(ListFault::Unknown) => Ending::Usage,
        Err(ListFault::Memory) => Ending::Memory,
    }
}

// All but the complaint.
fn work<H: Host, P: Procedures>(
    alloc: Global,
    words: &[String],
    num: &[Box<dyn NumExt>],
    sign: &[Box<dyn SignExt>],
    host: &mut H,
) -> Ending
    ensures answers { Works (H.told host.old) (H.told host.new) (Answers (steps_under P.step (λ x. title x) (λ x f. covered x f) (λ x. heading x) (λ x f. handled x f) num.now sign.now) (asked (known_among (map (λ x. title x) num.now) (map (λ x. heading x) sign.now)) (job_of (map (λ w. string_bytes w) words.now))) result) }
    ensures usage { result ≢ Ending.Memory → (result ≡ Ending.Usage ↔ AsksNothing (asked (known_among (map (λ x. title x) num.now) (map (λ x. heading x) sign.now)) (job_of (map (λ w. string_bytes w) words.now)))) }
    ensures faults { CountsFaults Ending.HostFailed result (H.faults host.old) (H.faults host.new) (H.complaint_faults host.old) (H.complaint_faults host.new) }
{
    match read_words(alloc, words) {
        Ok(Job::Usage) => Ending::Usage,
        Ok(Job::Check { file, cert }) => check(alloc, file, cert, host),
        Ok(
            Job::Prove {
                file,
                cert,
                without,
            },
        ) => prove_without::<H, P>(alloc, file, cert, without, num, sign, host),
        Ok(Job::Demo { count, without }) => demonstrate_without::<H, P>(
            alloc, count, without, num, sign, host,
        ),
        Err(Memory) => Ending::Memory,
    }
}

// A complaint that fails changes nothing else.
fn complain<H: Host>(host: &mut H, ending: Ending)
    ensures told { Complaint (complaint_of ending) (H.complaint_faults host.old) (H.complaint_faults host.new) (H.told host.old) (H.told host.new) }
    ensures faults { H.faults host.new ≡ H.faults host.old }
{
    if let Ending::Done { .. } = ending {
        return;
    }
    let _ = host.complain(ending.complaint().as_bytes());
}

/// Does all that the program does, with these extensions and this table of procedures. `words` begins with the program's
/// name.
///
/// A file that was loaded is read as a whole, and then reported command by command; what was done by the time a call on
/// the host fails, or memory runs out, is a beginning of what would have been done. What a script proves of its goal is
/// written into the certificate, where one is asked for, then handed to the host, and only then reported. For a check of a
/// certificate both files are loaded before anything is looked at. The demonstration is run as a file is, and its last
/// line alone is said.
pub fn run_by<H: Host, P: Procedures>(
    alloc: Global,
    words: &[String],
    host: &mut H,
    num: &[Box<dyn NumExt>],
    sign: &[Box<dyn SignExt>],
) -> Status
    // the calls, the certificate, the goals handed over, the report and the complaint; or a beginning of them
    ensures answers { Ends (steps_under P.step (λ x. title x) (λ x f. covered x f) (λ x. heading x) (λ x f. handled x f) num.now sign.now) (asked (known_among (map (λ x. title x) num.now) (map (λ x. heading x) sign.now)) (job_of (map (λ w. string_bytes w) words.now))) result (H.complaint_faults host.old) (H.complaint_faults host.new) (H.told host.old) (H.told host.new) }
    ensures usage { result ≢ Status.Memory → (result ≡ Status.Usage ↔ AsksNothing (asked (known_among (map (λ x. title x) num.now) (map (λ x. heading x) sign.now)) (job_of (map (λ w. string_bytes w) words.now)))) }
    ensures kept { result ≢ Status.HostFailed → H.faults host.new ≡ H.faults host.old }
    ensures failed { result ≡ Status.HostFailed → HasRisen (H.faults host.old) (H.faults host.new) }
    // what is to be read is too long or isn't UTF-8, but for a fault of the host or want of memory
    ensures bad { IfSome (H.told host.old) (λ t. result ≢ Status.HostFailed → result ≢ Status.Memory → (result ≡ Status.BadInput ↔ IsBad (asked (known_among (map (λ x. title x) num.now) (map (λ x. heading x) sign.now)) (job_of (map (λ w. string_bytes w) words.now))) t)) }
    // what can be done is done, but for a fault of the host or want of memory
    ensures complete { IfSome (H.told host.old) (λ t. IsReady (asked (known_among (map (λ x. title x) num.now) (map (λ x. heading x) sign.now)) (job_of (map (λ w. string_bytes w) words.now))) t → ¬ (HasRisen (H.faults host.old) (H.faults host.new)) → IsDone result) }
{
    let ending = work::<H, P>(alloc, words, num, sign, host);
    complain(host, ending);
    ending.status()
}
