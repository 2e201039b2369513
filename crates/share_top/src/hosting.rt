// What is hosted.
ghost use Rattle.topic_conf.specs.Topics.{IsTopicList};

use topic_conf::Config;

/// The topics of a configuration are those of one broker.
pub fn are_hosted(conf: &Config)
    ensures { IsTopicList conf.now.topics }
{
    let _ = conf.topics();
}
