//! What a run of a script leaves.
ghost use Rattle.std.specs.Prelude.{◌≡◌, None};

use bson_lite::List;
use driver_attempt::Client;
use driver_inputs::Outcome;
use driver_script::Script;
use driver_session::PlainStore;
use memory_links::CountingIds;
use model_server::ModelServer;

/// The script of a run, the outcomes of its calls, its client and its server, where it has come so far.
pub struct Run {
    pub script: Option<Script>,
    pub outcomes: Option<List<Outcome>>,
    pub client: Option<Client<PlainStore<CountingIds>>>,
    pub server: Option<ModelServer>,
}

impl Drop for Run {
    fn drop(self) {
        let Run {
            script,
            outcomes,
            client,
            server,
        } = self;
        drop(script);
        drop(outcomes);
        drop(client);
        drop(server);
    }
}

impl Run {
    /// A run that has not begun. It takes no memory.
    pub fn new() -> Run
        ensures { result ≡ record { script = None; outcomes = None; client = None; server = None } }
    {
        Run {
            script: None,
            outcomes: None,
            client: None,
            server: None,
        }
    }
}
