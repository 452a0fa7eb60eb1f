// The options of the command.
ghost use Rattle.std.specs.Prelude.{◌≡◌};
ghost use Rattle.std.specs.Map.{lookup};
ghost use Rattle.std.specs.Str.{bytes_eq};
ghost use Rattle.dsv_command.specs.Options.{command_options};
ghost use Rattle.dsv_command.specs.Views.{options_view};

/// An option: its name without the dashes, and whether it takes a value.
#[derive(Clone, Copy, Debug)]
pub struct CommandOption {
    pub name: &'static str,
    pub takes_value: bool,
}

/// The options that the command has. One more stands here and in `specs/Options.antt`; what it asks
/// for, in the job or the request.
const OPTIONS: [CommandOption; 27] = [
    CommandOption {
        name: "property",
        takes_value: true,
    },
    CommandOption {
        name: "x-size",
        takes_value: true,
    },
    CommandOption {
        name: "unbounded",
        takes_value: false,
    },
    CommandOption {
        name: "gain",
        takes_value: false,
    },
    CommandOption {
        name: "conflicts",
        takes_value: true,
    },
    CommandOption {
        name: "formula",
        takes_value: false,
    },
    CommandOption {
        name: "schur-cohn",
        takes_value: false,
    },
    CommandOption {
        name: "certificate",
        takes_value: false,
    },
    CommandOption {
        name: "check",
        takes_value: true,
    },
    CommandOption {
        name: "simulate",
        takes_value: true,
    },
    CommandOption {
        name: "sections",
        takes_value: true,
    },
    CommandOption {
        name: "state-space",
        takes_value: true,
    },
    CommandOption {
        name: "form",
        takes_value: true,
    },
    CommandOption {
        name: "lyapunov",
        takes_value: false,
    },
    CommandOption {
        name: "ellipsoid",
        takes_value: true,
    },
    CommandOption {
        name: "offer-ellipsoid",
        takes_value: false,
    },
    CommandOption {
        name: "plant",
        takes_value: true,
    },
    CommandOption {
        name: "realization",
        takes_value: true,
    },
    CommandOption {
        name: "rounding",
        takes_value: true,
    },
    CommandOption {
        name: "overflow-mode",
        takes_value: true,
    },
    CommandOption {
        name: "generate",
        takes_value: true,
    },
    CommandOption {
        name: "count",
        takes_value: true,
    },
    CommandOption {
        name: "words",
        takes_value: false,
    },
    CommandOption {
        name: "inputs",
        takes_value: true,
    },
    CommandOption {
        name: "outputs",
        takes_value: false,
    },
    CommandOption {
        name: "emit-c",
        takes_value: false,
    },
    CommandOption {
        name: "c-name",
        takes_value: true,
    },
];

/// The table of the options.
pub fn command_options() -> &'static [CommandOption]
    ensures { options_view result.now ≡ command_options }
{
    &OPTIONS
}

/// Whether the option of this name takes a value, where there is such an option.
pub fn takes_value(options: &[CommandOption], name: &str) -> Option<bool>
    ensures { result ≡ lookup (bytes_eq name.now) (options_view options.now) }
{
    for option in options {
        if name == option.name {
            return Some(option.takes_value);
        }
    }
    None
}
