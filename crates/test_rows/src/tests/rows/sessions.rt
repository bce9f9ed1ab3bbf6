//! What sessions take back, and who holds them.

pub(crate) const SESSIONS: &str = r#"row an insert is taken back
1 {"cmd":"insert","row":{"owner":"ann","balance":50,"vip":false}}
= {"id":0,"ok":true}
1 {"cmd":"get","id":0}
= {"ok":true,"row":{"balance":50,"id":0,"owner":"ann","vip":false}}
1 {"cmd":"start"}
= {"ok":true,"revision":1}
1 {"cmd":"insert","row":{"owner":"bob","balance":7,"vip":true}}
= {"id":1,"ok":true}
1 {"cmd":"undo"}
= {"ok":true,"revision":0}
1 {"cmd":"get","id":1}
= {"error":"id","ok":false}

row an undo after a losing modify
after three accounts
1 {"cmd":"start"}
= {"ok":true,"revision":1}
1 {"cmd":"modify","id":1,"set":{"owner":"a"}}
= {"error":"unique","id":0,"index":"by_owner","lost":true,"ok":false}
1 {"cmd":"undo"}
= {"ok":true,"revision":0}
1 {"cmd":"get","id":1}
= {"ok":true,"row":{"balance":2,"id":1,"owner":"b","vip":false}}
1 {"cmd":"list","index":"line"}
= {"more":false,"ok":true,"rows":[{"balance":1,"id":0,"owner":"a","vip":false},{"balance":2,"id":1,"owner":"b","vip":false},{"balance":3,"id":2,"owner":"c","vip":false}]}
1 {"cmd":"range","index":"by_balance"}
= {"more":false,"ok":true,"rows":[{"balance":1,"id":0,"owner":"a","vip":false},{"balance":2,"id":1,"owner":"b","vip":false},{"balance":3,"id":2,"owner":"c","vip":false}]}
1 {"cmd":"range","index":"by_class"}
= {"more":false,"ok":true,"rows":[{"balance":1,"id":0,"owner":"a","vip":false},{"balance":2,"id":1,"owner":"b","vip":false},{"balance":3,"id":2,"owner":"c","vip":false}]}

row an undo puts records back among their equals
1 {"cmd":"insert","row":{"owner":"a","balance":5,"vip":false}}
= {"id":0,"ok":true}
1 {"cmd":"insert","row":{"owner":"b","balance":5,"vip":false}}
= {"id":1,"ok":true}
1 {"cmd":"insert","row":{"owner":"c","balance":5,"vip":false}}
= {"id":2,"ok":true}
1 {"cmd":"insert","row":{"owner":"d","balance":5,"vip":false}}
= {"id":3,"ok":true}
1 {"cmd":"start"}
= {"ok":true,"revision":1}
1 {"cmd":"erase","id":1}
= {"ok":true}
1 {"cmd":"erase","id":2}
= {"ok":true}
1 {"cmd":"relocate","index":"line","id":3,"before":0}
= {"ok":true}
1 {"cmd":"list","index":"line"}
= {"more":false,"ok":true,"rows":[{"balance":5,"id":3,"owner":"d","vip":false},{"balance":5,"id":0,"owner":"a","vip":false}]}
1 {"cmd":"undo"}
= {"ok":true,"revision":0}
1 {"cmd":"list","index":"line"}
= {"more":false,"ok":true,"rows":[{"balance":5,"id":0,"owner":"a","vip":false},{"balance":5,"id":1,"owner":"b","vip":false},{"balance":5,"id":2,"owner":"c","vip":false},{"balance":5,"id":3,"owner":"d","vip":false}]}
1 {"cmd":"range","index":"by_balance"}
= {"more":false,"ok":true,"rows":[{"balance":5,"id":0,"owner":"a","vip":false},{"balance":5,"id":1,"owner":"b","vip":false},{"balance":5,"id":2,"owner":"c","vip":false},{"balance":5,"id":3,"owner":"d","vip":false}]}

row a squash joins two sessions
1 {"cmd":"insert","row":{"owner":"a","balance":1,"vip":false}}
= {"id":0,"ok":true}
1 {"cmd":"start"}
= {"ok":true,"revision":1}
1 {"cmd":"insert","row":{"owner":"b","balance":1,"vip":false}}
= {"id":1,"ok":true}
1 {"cmd":"start"}
= {"ok":true,"revision":2}
1 {"cmd":"modify","id":0,"add":{"balance":4}}
= {"ok":true}
1 {"cmd":"squash"}
= {"ok":true,"revision":1}
1 {"cmd":"get","id":0}
= {"ok":true,"row":{"balance":5,"id":0,"owner":"a","vip":false}}
1 {"cmd":"undo"}
= {"ok":true,"revision":0}
1 {"cmd":"get","id":0}
= {"ok":true,"row":{"balance":1,"id":0,"owner":"a","vip":false}}
1 {"cmd":"size"}
= {"ok":true,"size":1}
1 {"cmd":"undo"}
= {"error":"session","ok":false}
1 {"cmd":"insert","row":{"owner":"b","balance":1,"vip":false}}
= {"id":1,"ok":true}

row a commit ends the oldest sessions
1 {"cmd":"start"}
= {"ok":true,"revision":1}
1 {"cmd":"insert","row":{"owner":"a","balance":1,"vip":false}}
= {"id":0,"ok":true}
1 {"cmd":"start"}
= {"ok":true,"revision":2}
1 {"cmd":"insert","row":{"owner":"b","balance":2,"vip":false}}
= {"id":1,"ok":true}
1 {"cmd":"commit","revision":1}
= {"committed":1,"ok":true}
1 {"cmd":"revision"}
= {"depth":1,"held":1,"ok":true,"revision":2}
1 {"cmd":"undo"}
= {"ok":true,"revision":1}
1 {"cmd":"size"}
= {"ok":true,"size":1}
1 {"cmd":"commit","revision":0}
= {"committed":0,"ok":true}
1 {"cmd":"undo"}
= {"error":"session","ok":false}

row another connection waits while sessions are held
1 {"cmd":"insert","row":{"owner":"a","balance":1,"vip":false}}
= {"id":0,"ok":true}
1 {"cmd":"start"}
= {"ok":true,"revision":1}
1 {"cmd":"insert","row":{"owner":"b","balance":2,"vip":false}}
= {"id":1,"ok":true}
2 {"cmd":"insert","row":{"owner":"c","balance":3,"vip":false}}
= {"error":"busy","ok":false}
2 {"cmd":"get","id":0}
= {"ok":true,"row":{"balance":1,"id":0,"owner":"a","vip":false}}
2 {"cmd":"insert"}
= {"error":"form","ok":false}
2 {"cmd":"erase_key","index":"none","key":[]}
= {"error":"busy","ok":false}
1 closes
2 {"cmd":"insert","row":{"owner":"c","balance":3,"vip":false}}
= {"id":1,"ok":true}
2 {"cmd":"get","id":1}
= {"ok":true,"row":{"balance":3,"id":1,"owner":"c","vip":false}}

row a last line without a newline
1 {"cmd":"start"}
= {"ok":true,"revision":1}
1+ {"cmd":"undo"}
1 closes
= {"ok":true,"revision":0}

row the last revision
with first_revision = 9223372036854775807
1 {"cmd":"start"}
= {"error":"spent","ok":false}

row pushed sessions are anyone's
1 {"cmd":"start"}
= {"ok":true,"revision":1}
1 {"cmd":"insert","row":{"owner":"a","balance":1,"vip":false}}
= {"id":0,"ok":true}
1 {"cmd":"push"}
= {"ok":true,"pushed":1}
2 {"cmd":"insert","row":{"owner":"b","balance":2,"vip":false}}
= {"id":1,"ok":true}
2 {"cmd":"push"}
= {"ok":true,"pushed":0}
2 {"cmd":"undo"}
= {"ok":true,"revision":0}
2 {"cmd":"size"}
= {"ok":true,"size":0}

row erase by key and undo_all
1 {"cmd":"insert","row":{"owner":"a","balance":1,"vip":true}}
= {"id":0,"ok":true}
1 {"cmd":"insert","row":{"owner":"b","balance":2,"vip":true}}
= {"id":1,"ok":true}
1 {"cmd":"insert","row":{"owner":"c","balance":3,"vip":false}}
= {"id":2,"ok":true}
1 {"cmd":"start"}
= {"ok":true,"revision":1}
1 {"cmd":"erase_key","index":"by_vip","key":[true]}
= {"erased":2,"ok":true}
1 {"cmd":"start"}
= {"ok":true,"revision":2}
1 {"cmd":"erase_key","index":"by_vip","key":[true]}
= {"erased":0,"ok":true}
1 {"cmd":"undo_all"}
= {"ok":true,"undone":2}
1 {"cmd":"revision"}
= {"depth":0,"held":0,"ok":true,"revision":0}
1 {"cmd":"list","index":"line"}
= {"more":false,"ok":true,"rows":[{"balance":1,"id":0,"owner":"a","vip":true},{"balance":2,"id":1,"owner":"b","vip":true},{"balance":3,"id":2,"owner":"c","vip":false}]}
1 {"cmd":"rank","index":"by_balance","id":2}
= {"ok":true,"rank":2}

row a squash of the only session keeps its changes
1 {"cmd":"start"}
= {"ok":true,"revision":1}
1 {"cmd":"insert","row":{"owner":"a","balance":1,"vip":false}}
= {"id":0,"ok":true}
1 {"cmd":"squash"}
= {"ok":true,"revision":0}
1 {"cmd":"undo"}
= {"error":"session","ok":false}
1 {"cmd":"size"}
= {"ok":true,"size":1}
1 {"cmd":"reserve","changes":3,"sessions":1}
= {"ok":true}
1 {"cmd":"reserve","changes":1000001,"sessions":1}
= {"error":"form","ok":false}

row two tables under one stack of sessions
tables first_id = 10
1 {"cmd":"insert","row":{"k":5}}
= {"id":0,"ok":true}
1 {"cmd":"start"}
= {"ok":true,"revision":1}
1 {"cmd":"insert","table":"b","row":{"t":"x"}}
= {"id":10,"ok":true}
1 {"cmd":"insert","table":"b","row":{"t":"y"}}
= {"error":"full","ok":false}
1 {"cmd":"replace","id":0,"row":{"k":6}}
= {"ok":true}
1 {"cmd":"insert","table":"a","row":{"k":6}}
= {"error":"unique","id":0,"index":"u","ok":false}
1 {"cmd":"size","table":"c"}
= {"error":"table","ok":false}
1 {"cmd":"range","table":"b","index":"u"}
= {"error":"index","ok":false}
1 {"cmd":"start","table":"a"}
= {"error":"form","ok":false}
1 {"cmd":"undo"}
= {"ok":true,"revision":0}
1 {"cmd":"get","id":0}
= {"ok":true,"row":{"id":0,"k":5}}
1 {"cmd":"size","table":"b"}
= {"ok":true,"size":0}

row a table's name waits behind busy
tables first_id = 10
1 {"cmd":"start"}
= {"ok":true,"revision":1}
2 {"cmd":"insert","table":"c","row":{"k":1}}
= {"error":"busy","ok":false}
2 {"cmd":"size","table":"c"}
= {"error":"table","ok":false}

row a cut undoes what is held
1 {"cmd":"insert","row":{"owner":"a","balance":1,"vip":false}}
= {"id":0,"ok":true}
1 {"cmd":"start"}
= {"ok":true,"revision":1}
1 {"cmd":"erase","id":0}
= {"ok":true}
1 {"cmd":"start"}
= {"ok":true,"revision":2}
1 {"cmd":"insert","row":{"owner":"b","balance":2,"vip":true}}
= {"id":1,"ok":true}
1+ {"cmd":"siz
1 breaks off
2 {"cmd":"insert","row":{"owner":"b","balance":2,"vip":true}}
= {"id":1,"ok":true}
2 {"cmd":"list","index":"line"}
= {"more":false,"ok":true,"rows":[{"balance":1,"id":0,"owner":"a","vip":false},{"balance":2,"id":1,"owner":"b","vip":true}]}
2 {"cmd":"revision"}
= {"depth":0,"held":0,"ok":true,"revision":0}
"#;
