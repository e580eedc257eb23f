//! The law of `serve`.
ghost use Rattle.std.specs.Prelude.{ℕ, List, Option, Some};
ghost use Rattle.file_access.specs.Outside.{Files};
ghost use Rattle.command_base.specs.declared.status.Status.{Status};
ghost use Rattle.check_base.specs.Names.{CheckNames};
ghost use Rattle.serve_command.specs.Takes.{InputTake};
ghost use Rattle.serve_command.specs.Serving.{IsServeEnd};
ghost use Rattle.law_serve_promise.specs.Promise.{ServePromise};

/// A run that ends as `serve` ends over the files of a source that tells keeps the promise of `serve`.
pub fn serve_promised()
    ensures { (files : Files) (names : CheckNames) (old new : Option (List ℕ)) (selected : List ℕ)
        (taken : ℕ) (takes : Option (List InputTake)) (result : Status)
        → IsServeEnd (Some files) names old new selected taken takes result
        → ServePromise files names old new taken takes result }
{}
