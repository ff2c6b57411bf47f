//! The state: the signature of the last product that was acted on, or that ended it, in two files.
ghost use Rattle.std.specs.Prelude.{◌≡◌, ◌≢◌, ◌≤◌, IfOk, Some, string_bytes};
ghost use Rattle.std.specs.Option.{option_map};
ghost use Rattle.ldm_actions.specs.Hands.{action_of};
ghost use Rattle.ldm_actions.specs.Outputs.{KeepsUnlessSpent, standing};
ghost use Rattle.ldm_pqact.specs.Carried.{DoesBy};
ghost use Rattle.ldm_pqact.specs.declared.end.ActEnd.TheVariants as act_end;
ghost use Rattle.ldm_pqact_command.specs.State.{ReadsState, TakesSpare, TakesState, spare_path, state_actions};
ghost use Rattle.ldm_pqact_command.specs.State.{state_deeds, state_in, state_text, status_of_state};
ghost use Rattle.ldm_pqact_command.specs.State.{written_anew};

use arrayvec::ArrayVec;
use ldm_actions::{Action, FileOptions, Outputs};
use ldm_outside::{FileRead, Launcher, Reason, Store};
use ldm_pqact::{ActEnd, Pqact, act_with};
use ldm_signature::{read_hex, write_hex};
use ldm_status::Status;
use ldm_types::{OutOfMemory, Signature};
use std::alloc::Global;
use std::marker::Model;

/// The bytes of a state: 32 hexadecimal digits and a newline.
pub const LONGEST_STATE: u64 = 33;

// The most bytes of a path in a reason.
const LONGEST_PATH: usize = 100;

/// Why no state was taken.
#[derive(Clone, Copy, Debug, PartialEq, Eq)]
pub enum StateNotTaken {
    /// The file has another text than a signature in 32 hexadecimal digits and a newline; so has the one that was
    /// written before, or there is none.
    Bad,
    /// There is no memory.
    OutOfMemory,
}

// The signature that a text is of.
fn signature_in(text: &[u8]) -> Option<Signature>
    ensures { option_map (λ signature. signature.0) result ≡ state_in text.now }
{
    read_hex(text.strip_suffix(b"\n")?)
}

// Says of which file no state was taken, and why.
fn tell(why: &mut Reason, path: &str) {
    let path = path.as_bytes();
    why.clear();
    why.put(&path[..path.len().min(LONGEST_PATH)]);
    why.put(b":1: no signature of a product");
}

// What one file has.
enum StateRead {
    // A signature.
    Of(Signature),
    // Another text.
    Other,
    // There is no such file, or the store failed.
    Missing,
    OutOfMemory,
}

// Reads the file under the path.
fn read_state<F: Store>(alloc: Global, store: &mut F, path: &str) -> StateRead
    ensures reads { ReadsState result path.now (F.tells store.old) (F.tells store.new) }
    ensures faults_kept { (F.tells store.old).faults ≤ (F.tells store.new).faults }
{
    match store.read_file(alloc, path, LONGEST_STATE) {
        FileRead::Bytes(text) => match signature_in(text.as_slice()) {
            Some(signature) => StateRead::Of(signature),
            None => StateRead::Other,
        },
        FileRead::TooLong => StateRead::Other,
        FileRead::Failed => StateRead::Missing,
        FileRead::OutOfMemory => StateRead::OutOfMemory,
    }
}

/// The signature in the file under the path; or, where that has another text, in the one that was written before. It is
/// none where there is no such file, or the store failed.
pub(crate) fn take_state<F: Store>(
    alloc: Global,
    store: &mut F,
    path: &str,
    why: &mut Reason,
) -> Result<Option<Signature>, StateNotTaken>
    ensures takes { TakesState result path.now (F.tells store.old) (F.tells store.new) }
    ensures faults_kept { (F.tells store.old).faults ≤ (F.tells store.new).faults }
{
    match read_state(alloc, store, path) {
        StateRead::Of(signature) => Ok(Some(signature)),
        StateRead::Other => take_spare(alloc, store, path, why),
        StateRead::Missing => Ok(None),
        StateRead::OutOfMemory => Err(StateNotTaken::OutOfMemory),
    }
}

// The signature in the file that was written before the one under the path.
fn take_spare<F: Store>(
    alloc: Global,
    store: &mut F,
    path: &str,
    why: &mut Reason,
) -> Result<Option<Signature>, StateNotTaken>
    ensures takes { TakesSpare result path.now (F.tells store.old) (F.tells store.new) }
    ensures faults_kept { (F.tells store.old).faults ≤ (F.tells store.new).faults }
{
    let Ok(spare) = spare_path(alloc, path) else {
        return Err(StateNotTaken::OutOfMemory);
    };
    match read_state(alloc, store, spare.as_str()) {
        StateRead::Of(signature) => Ok(Some(signature)),
        StateRead::Other => {
            tell(why, path);
            Err(StateNotTaken::Bad)
        }
        StateRead::Missing => {
            tell(why, path);
            Err(StateNotTaken::Bad)
        }
        StateRead::OutOfMemory => Err(StateNotTaken::OutOfMemory),
    }
}

// The path of the file that is written before.
fn spare_path(alloc: Global, path: &str) -> Result<String, OutOfMemory>
    ensures { IfOk result (λ spare. string_bytes spare ≡ spare_path path.now) }
{
    let mut spare = String::from_str(alloc, path)?;
    spare.push_str("~")?;
    Ok(spare)
}

/// The status of a command that took no state.
pub(crate) fn status_of_state(why: StateNotTaken) -> Status
    ensures { result ≡ status_of_state why }
{
    match why {
        StateNotTaken::Bad => Status::BadConf {
            file: 0,
            line: 1,
            kind: 2,
        },
        StateNotTaken::OutOfMemory => Status::NoMemory,
    }
}

/// How a state is written: the file that is written before, and then the one that a run names.
#[derive(Drop)]
pub struct StateFiles {
    spare: Action,
    file: Action,
}

impl Model for StateFiles {
    ghost use Rattle.ldm_actions.specs.Hands.{action_of};
    ghost use Rattle.ldm_pqact_command.specs.State.{StateActions};

    ghost Value = { StateActions };

    ghost view = { λ it. record { spare = action_of it.spare; file = action_of it.file } };
}

impl StateFiles {
    /// Those of the state under the path.
    pub fn of(alloc: Global, path: &str) -> Result<StateFiles, OutOfMemory>
        ensures { IfOk result (λ files. files ≡ state_actions path.now) }
    {
        Ok(StateFiles {
            spare: written_anew(spare_path(alloc, path)?),
            file: written_anew(String::from_str(alloc, path)?),
        })
    }

    /// The action that is done first.
    pub(crate) fn spare(&self) -> &Action
        ensures { action_of result.now ≡ self.now.spare }
    {
        &self.spare
    }

    /// The action that is done then.
    pub(crate) fn file(&self) -> &Action
        ensures { action_of result.now ≡ self.now.file }
    {
        &self.file
    }
}

// The action that writes the file under the path anew.
fn written_anew(path: String) -> Action
    ensures { action_of result ≡ written_anew (string_bytes path) }
{
    Action::ToFile {
        path,
        options: FileOptions {
            overwrite: true,
            close: true,
            flush: true,
            strip: false,
        },
    }
}

/// Writes the state of the product of that signature by outputs, and answers [`ActEnd::Stopped`] where that is done.
pub(crate) fn write_state<F: Store, L: Launcher>(
    outputs: &mut Outputs,
    store: &mut F,
    launcher: &mut L,
    files: &StateFiles,
    signature: &Signature,
) -> ActEnd
    requires { KeepsUnlessSpent (standing outputs.old (F.tells store.old) (L.tells launcher.old)) }
    ensures { DoesBy result (state_deeds (Some files.now) (Some signature.now.0))
        (standing outputs.old (F.tells store.old) (L.tells launcher.old))
        (standing outputs.new (F.tells store.new) (L.tells launcher.new)) }
{
    let text = state_text(signature);
    let text = text.as_slice();
    match act_with(outputs, store, launcher, files.spare(), text) {
        ActEnd::Stopped => act_with(outputs, store, launcher, files.file(), text),
        end => end,
    }
}

/// The same by the outputs of what acts on products.
pub(crate) fn keep_with<F: Store, L: Launcher>(
    pqact: &mut Pqact,
    store: &mut F,
    launcher: &mut L,
    files: &StateFiles,
    signature: &Signature,
) -> ActEnd
    requires { KeepsUnlessSpent (standing pqact.old.outputs (F.tells store.old) (L.tells launcher.old)) }
    ensures others { pqact.new ≡ record pqact.old { outputs = pqact.new.outputs } }
    ensures keeps { KeepsUnlessSpent (standing pqact.new.outputs (F.tells store.new) (L.tells launcher.new)) }
    ensures does { DoesBy result (state_deeds (Some files.now) (Some signature.now.0))
        (standing pqact.old.outputs (F.tells store.old) (L.tells launcher.old))
        (standing pqact.new.outputs (F.tells store.new) (L.tells launcher.new)) }
    ensures not_busy { result ≢ act_end.AllBusy }
{
    let text = state_text(signature);
    let text = text.as_slice();
    match pqact.act_with(store, launcher, files.spare(), text) {
        ActEnd::Stopped => pqact.act_with(store, launcher, files.file(), text),
        end => end,
    }
}

/// The text of a state.
pub(crate) fn state_text(signature: &Signature) -> ArrayVec<u8, 33>
    ensures { result.items ≡ state_text signature.now.0 }
{
    let mut text = ArrayVec::new();
    if text
        .try_extend_from_slice(write_hex(signature).as_slice())
        .is_err()
        || text.try_extend_from_slice(b"\n").is_err()
    {
        unreachable!();
    }
    text
}
