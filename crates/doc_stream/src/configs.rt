//! A configuration.

ghost use Rattle.serde_json.specs.View.{members_view};
ghost use Rattle.doc_forms.specs.Answers.{Gives};
ghost use Rattle.doc_stream.specs.Configs.{app_at, stream_config};

use doc_forms::{DocFault, at, member, only, read_agents_and_tau, reference};
use serde_json::{Map, Value};
use std::alloc::Global;
use txn_types::{Config, Names};

#[tactic(auto, unfolding(crate::specs::Configs::app_at))]
fn app_at(alloc: Global, apps: &Names, members: &Map<String, Value>) -> Result<u8, DocFault>
    ensures { Gives (λ app. app) result (app_at apps.now (members_view members.now.entries)) }
{
    at(
        alloc,
        "config",
        reference(alloc, apps, member(members, "config")),
    )
}

/// A configuration.
#[tactic(auto, unfolding(crate::specs::Configs::stream_config))]
pub fn read_config(
    alloc: Global,
    apps: &Names,
    peers: &Names,
    members: &Map<String, Value>,
) -> Result<Config, DocFault>
    ensures { Gives (λ c. c) result (stream_config apps.now peers.now (members_view members.now.entries)) }
{
    let app = app_at(alloc, apps, members)?;
    let who = read_agents_and_tau(alloc, peers, members)?;
    only(alloc, &["config", "agents", "tau"], members)?;
    Ok(Config {
        app,
        agents: who.agents,
        tau: who.tau,
    })
}
