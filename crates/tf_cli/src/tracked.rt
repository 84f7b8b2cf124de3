//! The line that runs a command on all Terraform files that git tracks.

/// Puts together, when the program is built, what is said before that line, the line with this
/// between two of its names, and after its `tfk ` the command.
macro_rules! on_tracked_files {
    ($before:literal, $between:literal, $command:literal) => {
        concat!(
            $before,
            "git ls-files -z '*.tf' '*.tfvars' '*.tofu' '*.tftest.hcl' '*.tfmock.hcl'",
            $between,
            "'*.tfquery.hcl' '*.tofutest.hcl' | xargs -0 -r tfk ",
            $command
        )
    };
}

pub(crate) use on_tracked_files;
