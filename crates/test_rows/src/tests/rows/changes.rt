//! What changes answer and leave.

pub(crate) const CHANGES: &str = r#"row a refused insert uses no id
1 {"cmd":"insert","row":{"owner":"ann","balance":50,"vip":false}}
= {"id":0,"ok":true}
1 {"cmd":"insert","row":{"owner":"ann","balance":7,"vip":true}}
= {"error":"unique","id":0,"index":"by_owner","ok":false}
1 {"cmd":"insert","row":{"owner":"bob","balance":50,"vip":true}}
= {"id":1,"ok":true}

row three accounts
1 {"cmd":"insert","row":{"owner":"a","balance":1,"vip":false}}
= {"id":0,"ok":true}
1 {"cmd":"insert","row":{"owner":"b","balance":2,"vip":false}}
= {"id":1,"ok":true}
1 {"cmd":"insert","row":{"owner":"c","balance":3,"vip":false}}
= {"id":2,"ok":true}

row a losing modify
after three accounts
1 {"cmd":"modify","id":1,"set":{"owner":"a"},"rollback":true}
= {"error":"unique","id":0,"index":"by_owner","lost":false,"ok":false}
1 {"cmd":"get","id":1}
= {"ok":true,"row":{"balance":2,"id":1,"owner":"b","vip":false}}
1 {"cmd":"modify","id":1,"set":{"owner":"a"}}
= {"error":"unique","id":0,"index":"by_owner","lost":true,"ok":false}
1 {"cmd":"get","id":1}
= {"error":"id","ok":false}
1 {"cmd":"list","index":"line"}
= {"more":false,"ok":true,"rows":[{"balance":1,"id":0,"owner":"a","vip":false},{"balance":3,"id":2,"owner":"c","vip":false}]}
1 {"cmd":"rank","index":"by_balance","id":2}
= {"ok":true,"rank":1}

row a sum that leaves 64 bits
1 {"cmd":"insert","row":{"owner":"a","balance":9223372036854775806,"vip":false}}
= {"id":0,"ok":true}
1 {"cmd":"modify","id":0,"add":{"balance":1}}
= {"ok":true}
1 {"cmd":"modify","id":0,"add":{"balance":1}}
= {"error":"range","ok":false}
1 {"cmd":"get","id":0}
= {"ok":true,"row":{"balance":9223372036854775807,"id":0,"owner":"a","vip":false}}

row relocation
after three accounts
1 {"cmd":"relocate","index":"line","id":0,"before":0}
= {"ok":true}
1 {"cmd":"list","index":"line"}
= {"more":false,"ok":true,"rows":[{"balance":1,"id":0,"owner":"a","vip":false},{"balance":2,"id":1,"owner":"b","vip":false},{"balance":3,"id":2,"owner":"c","vip":false}]}
1 {"cmd":"relocate","index":"line","id":0,"before":null}
= {"ok":true}
1 {"cmd":"list","index":"line"}
= {"more":false,"ok":true,"rows":[{"balance":2,"id":1,"owner":"b","vip":false},{"balance":3,"id":2,"owner":"c","vip":false},{"balance":1,"id":0,"owner":"a","vip":false}]}
1 {"cmd":"relocate","index":"line","id":7,"before":0}
= {"error":"id","ok":false}
1 {"cmd":"relocate","index":"line","id":2,"before":1}
= {"ok":true}
1 {"cmd":"list","index":"line"}
= {"more":false,"ok":true,"rows":[{"balance":3,"id":2,"owner":"c","vip":false},{"balance":2,"id":1,"owner":"b","vip":false},{"balance":1,"id":0,"owner":"a","vip":false}]}
1 {"cmd":"relocate","index":"by_vip","id":2,"before":1}
= {"error":"kind","ok":false}

row values that don't fit
1 {"cmd":"insert","row":{"owner":"a","balance":1.5,"vip":false}}
= {"error":"row","ok":false}
1 {"cmd":"insert","row":{"owner":"a","balance":9223372036854775808,"vip":false}}
= {"error":"row","ok":false}

row the last id
with first_id = 9223372036854775806
1 {"cmd":"insert","row":{"owner":"a","balance":1,"vip":false}}
= {"id":9223372036854775806,"ok":true}
1 {"cmd":"insert","row":{"owner":"b","balance":1,"vip":false}}
= {"error":"spent","ok":false}

row the last arrival
with first_arrival = 9223372036854775806
1 {"cmd":"insert","row":{"owner":"a","balance":1,"vip":false}}
= {"id":0,"ok":true}
1 {"cmd":"insert","row":{"owner":"a","balance":1,"vip":false}}
= {"error":"spent","ok":false}
1 {"cmd":"replace","id":0,"row":{"owner":"a","balance":2,"vip":false}}
= {"error":"spent","ok":false}
1 {"cmd":"erase","id":0}
= {"ok":true}

row a full table
with max_rows = 2
1 {"cmd":"insert","row":{"owner":"a","balance":1,"vip":false}}
= {"id":0,"ok":true}
1 {"cmd":"insert","row":{"owner":"b","balance":1,"vip":false}}
= {"id":1,"ok":true}
1 {"cmd":"insert","row":{"owner":"a","balance":1,"vip":false}}
= {"error":"full","ok":false}

row one id in two tables
tables first_id = 0
1 {"cmd":"insert","table":"a","row":{"k":1}}
= {"id":0,"ok":true}
1 {"cmd":"insert","table":"b","row":{"t":"x"}}
= {"id":0,"ok":true}
1 {"cmd":"erase","table":"a","id":0}
= {"ok":true}
1 {"cmd":"size","table":"b"}
= {"ok":true,"size":1}

row an insert before a record
1 {"cmd":"insert","row":{"owner":"a","balance":5,"vip":false}}
= {"id":0,"ok":true}
1 {"cmd":"insert","row":{"owner":"b","balance":5,"vip":false}}
= {"id":1,"ok":true}
1 {"cmd":"insert","row":{"owner":"c","balance":5,"vip":false},"before":{"index":"line","id":1}}
= {"id":2,"ok":true}
1 {"cmd":"list","index":"line"}
= {"more":false,"ok":true,"rows":[{"balance":5,"id":0,"owner":"a","vip":false},{"balance":5,"id":2,"owner":"c","vip":false},{"balance":5,"id":1,"owner":"b","vip":false}]}
1 {"cmd":"range","index":"by_balance"}
= {"more":false,"ok":true,"rows":[{"balance":5,"id":0,"owner":"a","vip":false},{"balance":5,"id":1,"owner":"b","vip":false},{"balance":5,"id":2,"owner":"c","vip":false}]}
1 {"cmd":"insert","row":{"owner":"a","balance":5,"vip":false},"before":{"index":"line","id":9}}
= {"error":"id","ok":false}
1 {"cmd":"insert","row":{"owner":"a","balance":5,"vip":false},"before":{"index":"line","id":1}}
= {"error":"unique","id":0,"index":"by_owner","ok":false}
1 {"cmd":"insert","row":{"owner":"a","balance":5,"vip":false},"before":{"index":"by_vip","id":1}}
= {"error":"kind","ok":false}
1 {"cmd":"insert","row":{"owner":"a","balance":5,"vip":false},"before":{"index":"none","id":1}}
= {"error":"index","ok":false}
1 {"cmd":"insert","row":{"owner":"a","balance":5,"vip":false},"before":7}
= {"error":"form","ok":false}
1 {"cmd":"start"}
= {"ok":true,"revision":1}
1 {"cmd":"insert","row":{"owner":"d","balance":5,"vip":false},"before":{"index":"line","id":0}}
= {"id":3,"ok":true}
1 {"cmd":"list","index":"line"}
= {"more":false,"ok":true,"rows":[{"balance":5,"id":3,"owner":"d","vip":false},{"balance":5,"id":0,"owner":"a","vip":false},{"balance":5,"id":2,"owner":"c","vip":false},{"balance":5,"id":1,"owner":"b","vip":false}]}
1 {"cmd":"erase","id":0}
= {"ok":true}
1 {"cmd":"undo"}
= {"ok":true,"revision":0}
1 {"cmd":"list","index":"line"}
= {"more":false,"ok":true,"rows":[{"balance":5,"id":0,"owner":"a","vip":false},{"balance":5,"id":2,"owner":"c","vip":false},{"balance":5,"id":1,"owner":"b","vip":false}]}
"#;
