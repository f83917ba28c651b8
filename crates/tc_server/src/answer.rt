//! What a line asks for.

ghost use Rattle.std.specs.Prelude.{◌≡◌, length, IfOk};
ghost use Rattle.tc_command.specs.Commands.{request_of_command, IsLawful};
ghost use Rattle.tc_request_model.specs.Request.{request_of};
ghost use Rattle.tc_request_model.specs.Light.{IsLight};
ghost use Rattle.tc_run_model.specs.Windows.{is_control};
ghost use Rattle.tc_server.specs.Asked.{is_whole, request_asked, IsRunForPart};
ghost use Rattle.tc_server.specs.declared.answer.Action.TheVariants.{Refuse};

use std::alloc::{AllocError, Global};
use std::marker::Model;
use tc_command::{Ask, Command, ParseFault, Refusal};
use tc_command_reader::CommandReader;

/// What is asked of the whole store.
#[derive(Drop)]
pub enum Control {
    Flush,
    Schema,
    Scan(Ask),
    Collect,
}

/// A command for a partition, one for the whole store, or why there is none.
#[derive(Drop)]
pub enum Action {
    Run(Command),
    Whole(Control),
    Refuse(Refusal),
}

/// What a line asks for, or why it is refused. A document in it is no heavier than a line.
#[derive(Drop)]
pub struct Asked {
    action: Action,
}

impl Model for Asked {
    ghost use Rattle.tc_server.specs.declared.answer.Action.{Action};
    ghost use Rattle.tc_server.specs.contracts.answer.Action as contract;

    ghost Value = { Action };

    ghost coded = { contract.the_row.coded };

    ghost use Rattle.tc_server.specs.Asked.{IsSoundAction};

    ghost view = { λ a. a.action };

    ghost invariant = { λ a. IsSoundAction a.action };
}

impl Asked {
    /// What a line asks for. Errs only for want of memory.
    pub fn of(commands: &mut CommandReader, alloc: Global, line: &[u8]) -> Result<Asked, AllocError>
        ensures request { IfOk result (λ asked. request_asked asked ≡ request_of line.now) }
        ensures whole { IfOk result (λ asked. is_whole asked ≡ is_control (request_of line.now)) }
        ensures light { IfOk result (λ asked. IsLight (length line.now) (request_asked asked)) }
    {
        match commands.parse(alloc, line) {
            Ok(command) => Ok(Asked {
                action: action_of(command),
            }),
            Err(ParseFault::Refused(refusal)) => Ok(Asked::refused(refusal)),
            Err(ParseFault::Memory) => Err(AllocError),
        }
    }

    /// A line that is refused.
    pub fn refused(refusal: Refusal) -> Asked
        ensures { result ≡ Refuse refusal }
    {
        Asked {
            action: Action::Refuse(refusal),
        }
    }

    /// The command, or why there is none.
    pub fn into_action(self) -> Action
        ensures action { result ≡ self }
        ensures for_part { IsRunForPart result }
    {
        self.action
    }
}

// What is to be done for a command.
fn action_of(command: Command) -> Action
    ensures request { request_asked result ≡ request_of_command command }
    ensures whole { is_whole result ≡ is_control (request_of_command command) }
    ensures for_part { IsLawful command → IsRunForPart result }
{
    match command {
        Command::Flush => Action::Whole(Control::Flush),
        Command::Schema => Action::Whole(Control::Schema),
        Command::Scan(ask) => Action::Whole(Control::Scan(ask)),
        Command::Collect => Action::Whole(Control::Collect),
        command => Action::Run(command),
    }
}
